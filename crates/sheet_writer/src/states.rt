// The states of a sheet that is being written. Each is plain numbers, and can be made and taken apart only here: a
// state is spent by the call that it is handed to, and nobody can write an operation where no element is open.
// A struct of the two numbers that both have would be one more name at each place and shorten none.
use march::operations::Order;

// No element is open: an element can be opened, or the sheet be ended.
pub struct BetweenElements {
    pub(crate) at: usize,
    pub(crate) elements: u8,
}

// An element is open: an operation can be written, or the element be closed.
pub struct InsideElement {
    pub(crate) at: usize,
    pub(crate) order: Order,
    pub(crate) elements: u8,
    pub(crate) operations: u8,
}

impl BetweenElements {
    // Gives the sheet up. What was written stays in the buffer.
    pub fn abandon(self) {
        let BetweenElements { at: _, elements: _ } = self;
    }
}

impl InsideElement {
    // Gives the sheet up. What was written stays in the buffer. A trait would shorten neither: each takes its own fields apart.
    pub fn abandon(self) {
        let InsideElement {
            at: _,
            order: _,
            elements: _,
            operations: _,
        } = self;
    }
}
