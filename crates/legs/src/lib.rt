// Legs, which say which switch positions there are and which moves between them, and measures, which say what a sequence costs.
#![tactic(auto)]

pub mod barred;
pub mod leg;
pub mod limits;
pub mod listed;
pub mod measure;
pub mod peak_first;
pub mod phases;
pub mod squared;
pub mod stepped;
