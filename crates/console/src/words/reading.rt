// How words are read off a line.
ghost use Rattle.std.specs.Prelude.{◌≡◌, ◌+◌, ◌<◌, [], ◌∷◌, not, length, IfSome};
ghost use Rattle.std.specs.List.{position, take_while};
ghost use Rattle.console.specs.Tokens.{First, end_column, left, others};
ghost use Rattle.console.specs.Words.{is_space, magnitude, number as number_of, phase as phase_of, words};

use super::{Token, Words};

// Where the first word of some bytes begins, if they have one.
fn first_byte(bytes: &[u8]) -> Option<usize>
    ensures { result ≡ position (λ b. not (is_space b)) bytes.now }
{
    bytes.iter().position(|b| *b != b' ')
}

// How long the word is at the front of some bytes.
fn word_len(bytes: &[u8]) -> usize
    ensures { result ≡ length (take_while (λ b. not (is_space b)) bytes.now) }
{
    bytes.iter().take_while(|b| **b != b' ').count()
}

// The number that one to seven digits write. By hand, since `parse` takes a plus sign and any number of digits.
fn unsigned(digits: &[u8]) -> Option<u32>
    ensures is { result ≡ magnitude digits.now }
    ensures small { IfSome result (λ v. v < 10000000) }
{
    if digits.is_empty() || digits.len() > 7 {
        return None;
    }
    let mut v = 0u32;
    for b in digits {
        v = v * 10 + (*b as char).to_digit(10)?;
    }
    Some(v)
}

// The number that a word writes, if it writes one.
fn number(bytes: &[u8]) -> Option<i32>
    ensures { result ≡ number_of bytes.now }
{
    match bytes {
        [b'-', digits @ ..] => unsigned(digits).map(|n| -(n as i32)),
        _ => unsigned(bytes).map(|n| n as i32),
    }
}

// The phase that a word names, if it names one, as the number that the controller takes.
pub(crate) fn phase(bytes: &[u8]) -> Option<u8>
    ensures { result ≡ phase_of bytes.now }
{
    let [b] = bytes else {
        return None;
    };
    match *b as char {
        'a' => Some(0),
        'b' => Some(1),
        'c' => Some(2),
        _ => None,
    }
}

// A word as a token.
fn token(column: usize, bytes: &[u8]) -> Token<'_>
    ensures { First 0 (record { column = column; bytes = bytes.now } ∷ []) result }
{
    match number(bytes) {
        Some(value) => Token::Number {
            column,
            bytes,
            value,
        },
        None => Token::Name { column, bytes },
    }
}

impl<'a> Words<'a> {
    // A line, from its front.
    pub(crate) fn new(line: &'a [u8]) -> Words<'a>
        ensures left { left result ≡ words line.now }
        ensures end { end_column result ≡ length line.now + 1 }
    {
        Words { line, at: 0 }
    }

    // The next word, which is then behind. It is no Iterator's: the end of a line
    // is a token too, with its column.
    pub(crate) fn next(&mut self) -> Token<'a>
        ensures first { First (end_column self.old) (left self.old) result }
        ensures left { left self.new ≡ others (left self.old) }
        ensures end { end_column self.new ≡ end_column self.old }
    {
        let line = self.line;
        let Some(spaces) = first_byte(&line[self.at..]) else {
            self.at = line.len();
            return Token::End {
                column: line.len() + 1,
            };
        };
        let from = self.at + spaces;
        let to = from + word_len(&line[from..]);
        self.at = to;
        token(from + 1, &line[from..to])
    }

    // The column past the line's last byte.
    pub(crate) fn end_column(&self) -> usize
        ensures { result ≡ end_column self.now }
    {
        self.line.len() + 1
    }
}
