// Trials: a test done on an array outside any bench, with a byte for each read or compare.
#![tactic(auto)]

pub mod counting;
pub mod doing;
pub mod result;
pub mod trial;
