// Array texts: reading a text into a plane array with the defects that it describes. Words and remarks come from the
// crate `words`, single lines from `array_lines`; each layer passes the faults of the one below up to its caller.
#![tactic(auto)]

pub mod array;
pub mod first_line;
pub mod lines;
pub mod planting;
