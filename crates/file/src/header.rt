// The fixed part of a table file. Entry k begins at HEADER_BYTES + ENTRY_BYTES * k.

// The letters that a table file begins with.
pub(crate) const LETTERS: [u8; 3] = *b"SDT";

// The version of the file that is read and written.
pub(crate) const VERSION: u16 = 1;

// The bytes in front of the first entry.
pub(crate) const HEADER_BYTES: usize = 6;

// The bytes of an entry.
pub(crate) const ENTRY_BYTES: usize = 4;
