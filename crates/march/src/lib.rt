// Tests in the march notation: elements of operations with what is expected of their answers, and the steps that an
// element does on an array.
#![tactic(auto)]

pub mod element;
pub mod few;
pub mod name;
pub mod naming;
pub mod operations;
pub mod step;
pub mod steps;
pub mod test;
