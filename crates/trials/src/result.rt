// What a trial answers.

// How many operations a trial did, and how many of them missed.
#[derive(Clone, Copy, Debug, Default, PartialEq, Eq)]
pub struct TrialResult {
    pub operations: u32,
    pub misses: u32,
}
