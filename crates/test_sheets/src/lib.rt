// Whole tests as sheets: each test is written as the sheet that reads back as it.
#![tactic(auto)]

pub mod lengths;
pub mod mlt1_sheet;
pub mod whole_tests;
