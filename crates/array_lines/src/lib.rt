// Single lines of an array text, as `(cell 1 2 sa0)` or `(mark 3)`: numbers with their limits, the defect that a line
// describes, and remarks.
#![tactic(auto)]

pub mod cell;
pub mod line;
pub mod number;
