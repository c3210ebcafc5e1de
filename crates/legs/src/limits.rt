// How much a measure is asked to take in.

// The most rows that a sequence has.
pub const MOST_ROWS: u64 = 15;

// The most that a row's difference can be, without its sign.
pub const MOST_DIFFERENCE: u64 = 161_218_560;
