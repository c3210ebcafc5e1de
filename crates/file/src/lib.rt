// The table file: what it holds, how it is read, and how it is written.
#![tactic(auto)]

mod header;
pub mod horizon;
pub mod layout;
mod rows;
pub mod stored;
pub mod tables;
