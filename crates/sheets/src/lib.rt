// Test sheets: reading a sheet into a test. Words and remarks come from the crate `words`, single operations from
// `sheet_operations`; each layer passes the faults of the one below up to its caller.
#![tactic(auto)]

pub mod element;
pub mod line;
pub mod sheet;
