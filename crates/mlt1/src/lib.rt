// The test MLT-1: its elements, a run of it that can be stopped at any step, and what a whole run tells of an array.
#![tactic(auto)]

pub mod run;
pub mod state;
pub mod table;
pub mod whole;
