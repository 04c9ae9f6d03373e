// The sheet writer. A sheet is written piece by piece into the caller's buffer, which comes with each call; the state
// of the sheet is moved from call to call.
#![tactic(auto)]

pub mod pieces;
pub mod states;
pub mod writer;
