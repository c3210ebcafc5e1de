// What a line asks for.
ghost use Rattle.std.specs.Prelude.{◌≡◌, ℕ, ◌+◌, ◌-◌, ◌≤◌, length, pos, slice_index_or};
ghost use Rattle.arrayvec.specs.ArrayVec.{array_vec_len};
ghost use Rattle.fault.specs.Refusals.{Answers, first_some};
ghost use Rattle.console.specs.Lines.{arguments_refusal, asked, asks, command_refusal, commanded, count_refusal, left_over, line_refusal, named_phase, numbers_refusal, values, verb as verb_of};
ghost use Rattle.console.specs.Requests.{Means, MeansMaybe, NumbersRead};
ghost use Rattle.console.specs.Tokens.{end_column, left};
ghost use Rattle.console.specs.Words.{words as words_of};
ghost use Rattle.console.specs.declared.requests.Verb.TheVariants.{Limit as LimitVerb, Bar as BarVerb, Step as StepVerb};

use crate::words::{Token, Words, phase};
use arrayvec::ArrayVec;
use controller::order::Closing;
use fault::{Fault, Rule};

// The most bytes that a line may have.
const LONGEST_LINE: usize = 120;

// The first word of a line.
#[derive(Clone, Copy)]
pub(crate) enum Verb {
    Load,
    Limit,
    Bar,
    Free,
    Step,
    Try,
}

// The numbers of a plan: its two currents, and two references for each of at most five stages.
pub(crate) type Numbers = ArrayVec<i32, 12>;

// What a line asks for, with a phase as the number that the controller takes. Of a plan's numbers there are two at least, which is
// no type's to say, since LIMIT has one of the same list.
#[derive(Drop)]
pub(crate) enum Request {
    Load,
    Limit(i32),
    Bar(u8),
    Free(u8),
    Plan(Numbers, Closing),
}

// The command that a word names, if it names one.
fn named_verb(word: &[u8]) -> Option<Verb>
    ensures { result ≡ verb_of word.now }
{
    match word {
        b"LOAD" => Some(Verb::Load),
        b"LIMIT" => Some(Verb::Limit),
        b"BAR" => Some(Verb::Bar),
        b"FREE" => Some(Verb::Free),
        b"STEP" => Some(Verb::Step),
        b"TRY" => Some(Verb::Try),
        _ => None,
    }
}

// Sees that no word is left.
fn ended(words: &mut Words) -> Result<(), Fault>
    ensures { Answers (left_over (left words.old)) (λ _. Unit {0}) result }
{
    match words.next() {
        Token::End { .. } => Ok(()),
        Token::Number { column, .. } => Err(Rule::WordCount.at(column)),
        Token::Name { column, .. } => Err(Rule::WordCount.at(column)),
    }
}

// The numbers among the next words, at most so many.
fn numbers(words: &mut Words, most: usize) -> Result<Numbers, Fault>
    requires { most ≤ 12 }
    ensures { Answers (numbers_refusal most (left words.old)) (λ n. NumbersRead most words.old n words.new) result }
{
    let mut found = Numbers::new();
    for _i in 0..most {
        match words.next() {
            Token::Number { value, .. } => found.push(value),
            Token::Name { column, .. } => return Err(Rule::NumberWord.at(column)),
            Token::End { .. } => break,
        }
    }
    Ok(found)
}

// The numbers behind a command, and nothing else: at least so many, and at most so many.
fn counted(words: &mut Words, least: usize, most: usize) -> Result<Numbers, Fault>
    requires order { least ≤ most }
    requires few { most ≤ 12 }
    ensures { Answers (first_some (numbers_refusal most (left words.old)) (count_refusal least most (end_column words.old) (left words.old))) (λ n. (least ≤ array_vec_len n) × (n.items ≡ values (left words.old))) result }
{
    let found = numbers(words, most)?;
    if found.len() < least {
        return Err(Rule::WordCount.at(words.end_column()));
    }
    ended(words)?;
    Ok(found)
}

// The one number behind a command.
fn one_number(words: &mut Words) -> Result<i32, Fault>
    ensures { Answers (arguments_refusal LimitVerb (end_column words.old) (left words.old)) (λ z. z ≡ slice_index_or (values (left words.old)) 0 (pos 0)) result }
{
    let found = counted(words, 1, 1)?;
    Ok(found[0])
}

// The phase behind a command.
fn one_phase(words: &mut Words) -> Result<u8, Fault>
    ensures { Answers (arguments_refusal BarVerb (end_column words.old) (left words.old)) (λ p. p ≡ named_phase (left words.old)) result }
{
    let (column, bytes) = match words.next() {
        Token::End { column } => return Err(Rule::WordCount.at(column)),
        Token::Number { column, bytes, .. } | Token::Name { column, bytes } => (column, bytes),
    };
    let Some(p) = phase(bytes) else {
        return Err(Rule::PhaseLetter.at(column));
    };
    ended(words)?;
    Ok(p)
}

// What a command asks for, with the words behind it.
fn with_arguments(verb: Verb, words: &mut Words) -> Result<Request, Fault>
    ensures { Answers (arguments_refusal verb (end_column words.old) (left words.old)) (λ q. Means q (asks verb (left words.old))) result }
{
    match verb {
        Verb::Load => {
            ended(words)?;
            Ok(Request::Load)
        }
        Verb::Limit => Ok(Request::Limit(one_number(words)?)),
        Verb::Bar => Ok(Request::Bar(one_phase(words)?)),
        Verb::Free => Ok(Request::Free(one_phase(words)?)),
        Verb::Step => Ok(Request::Plan(counted(words, 2, 12)?, Closing::Fire)),
        Verb::Try => Ok(Request::Plan(counted(words, 2, 12)?, Closing::Withdraw)),
    }
}

// What the first word of a line asks for, with the words behind it.
fn commanded_by(column: usize, word: &[u8], words: &mut Words) -> Result<Option<Request>, Fault>
    ensures { Answers (command_refusal (verb_of word.now) column (end_column words.old) (left words.old)) (λ q. MeansMaybe q (commanded (verb_of word.now) (left words.old))) result }
{
    let Some(verb) = named_verb(word) else {
        return Err(Rule::CommandWord.at(column));
    };
    Ok(Some(with_arguments(verb, words)?))
}

// What a line asks for. A line without words asks for nothing.
pub(crate) fn requested(line: &[u8]) -> Result<Option<Request>, Fault>
    ensures { Answers (line_refusal line.now) (λ q. MeansMaybe q (asked (words_of line.now))) result }
{
    if line.len() > LONGEST_LINE {
        return Err(Rule::LineLength.at(LONGEST_LINE + 1));
    }
    let mut words = Words::new(line);
    match words.next() {
        Token::End { .. } => Ok(None),
        Token::Number { column, bytes, .. } => commanded_by(column, bytes, &mut words),
        Token::Name { column, bytes } => commanded_by(column, bytes, &mut words),
    }
}
