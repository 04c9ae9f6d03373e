// The calls of a bench as values. A ticket stands as its number, so that lists of calls can show any ticket.
use cam::operation::Operation;

#[derive(Clone, Copy)]
pub enum Call {
    ByHand(Operation),
    Start,
    Step { ticket: u64, most: u32 },
    Close { ticket: u64 },
    Quit { ticket: u64 },
    Chart { bytes: usize },
    Finding,
}
