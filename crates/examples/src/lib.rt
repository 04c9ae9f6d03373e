// Worked examples, proved over the same definitions as the contracts of the calls.
#![tactic(auto)]

pub mod columns;
