// Tests of legs and measures.
#![tactic(auto)]

#[cfg(test)]
mod tests;
