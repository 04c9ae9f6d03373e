// The plane array: a record a word, in which bit j of each number belongs to column j, so that an operation works on
// all columns of a word at once.
#![tactic(auto)]

pub mod array;
pub mod making;
pub mod operating;
pub mod planting;
pub mod word;
