// Tests of one period's numbers, rounding and refusals.
#![tactic(auto)]

#[cfg(test)]
mod tests;
