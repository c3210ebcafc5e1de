// The controller: it keeps tables, limit, bars and the applied positions, plans one period at a time, and hands out an order
// for each plan.
#![tactic(auto)]

pub mod calls;
pub mod order;
mod sequence;
pub mod state;
