// One operation of a test sheet, as `(w 1)` or `(c 0 hit)`: its letter, its bit, what is expected, and the questions of
// the meaning that come between.
#![tactic(auto)]

pub mod letter;
pub mod operation;
pub mod question;
