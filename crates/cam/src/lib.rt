// A content addressable memory as a test bench sees it: its index types, its defects, the refusals, the array
// interface `CamArray` and the four operations. specs/ has the model that every contract speaks of.
#![tactic(auto)]

pub mod array;
pub mod bits;
pub mod buffer;
pub mod defect;
pub mod fault;
pub mod index;
pub mod mark;
pub mod operation;
pub mod size;
pub mod tally;
