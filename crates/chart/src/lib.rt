// The chart of an array: a byte for each cell that says what is wrong with it.
#![tactic(auto)]

pub mod answers;
pub mod drawing;
