// The lines that the judge prints, each made in the caller's buffer, and the printing of a judgement or a refusal.
#![tactic(auto)]

pub mod lines;
mod pieces;
pub mod printing;
