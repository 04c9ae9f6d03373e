// Kinds of cell: a trait with contracts against what a cell means, the table cell, which stores its meaning as it is,
// and the transistor cell, whose comparison follows from the four transistors of its search path.
#![tactic(auto)]

pub mod kind;
pub mod table;
pub mod transistor;
