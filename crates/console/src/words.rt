// The words of a line.
ghost use Rattle.std.specs.Prelude.{◌≡◌, ℕ, ◌+◌, ◌-◌, ◌*◌, ◌<◌, ◌≤◌, length, slice_index_or, take, drop, ℤ, pos, MatchOption};

mod reading;

pub(crate) use reading::phase;

// What stands next in a line: a word that writes a number, any other word, or the end. A word is a part of the line itself,
// with the column of its first byte, counted from 1; the end has the column past the line's last byte.
#[derive(Clone, Copy)]
pub(crate) enum Token<'a> {
    Number {
        column: usize,
        bytes: &'a [u8],
        value: i32,
    },
    Name {
        column: usize,
        bytes: &'a [u8],
    },
    End {
        column: usize,
    },
}

// A line, and how far it is read.
#[derive(Drop)]
pub(crate) struct Words<'a> {
    line: &'a [u8],
    at: usize,
    ghost within: { at ≤ length line.now },
}
