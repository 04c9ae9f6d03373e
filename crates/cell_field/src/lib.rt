// The cell field: an array over the caller's cells, one record a cell, written once for every kind of cell.
#![tactic(auto)]

pub mod field;
pub mod operating;
pub mod rows;
