// Judging the array that a text describes.
#![tactic(auto)]

pub mod judging;
