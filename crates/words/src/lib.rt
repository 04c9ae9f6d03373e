// What sheets and array texts have in common: their words, brackets and line feeds, the readers of single tokens, and
// remarks. Each reader moves the cursor past what it read, or answers the fault that comes first.
#![tactic(auto)]

pub mod cursor;
pub mod form;
pub mod meaning;
pub mod remark;
pub mod token;
