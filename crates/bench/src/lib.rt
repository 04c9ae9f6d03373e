// The bench: what a tester drives. It holds one array, and hands out operations, runs of MLT-1 and charts.
#![tactic(auto)]

pub mod bench;
pub mod books;
pub mod calls;
pub mod charts;
pub mod every_list;
pub mod findings;
pub mod hand;
pub mod judging;
pub mod runs;
pub mod whole;
