// What a user adds from outside: a leg and a measure of his own, under the library's layers.
#![tactic(auto)]

pub mod climbing;
pub mod dead_band;
#[cfg(test)]
mod tests;
