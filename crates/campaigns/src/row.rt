// What a campaign tells of one fault.

// At how many places the fault was detected, how many places there are, and the share in tenths of a percent, rounded
// down. The default is a row that no campaign has filled yet.
#[derive(Clone, Copy, Debug, Default, PartialEq, Eq)]
pub struct Row {
    pub detected: u32,
    pub total: u32,
    pub tenths: u32,
}
