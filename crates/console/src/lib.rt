// The console: lines of text to calls on a controller, and what came of them to lines of text.
#![tactic(auto)]

mod answer;
mod printing;
mod requests;
pub mod state;
mod words;

pub use printing::ROOM;
