// The pieces of a sheet, and whether one fits.
ghost use Rattle.std.specs.Prelude.{◌≡◌, [], ◌∷◌, nat_lt};
ghost use Rattle.cam.specs.Refusals.{Asks, ask};
ghost use Rattle.sheet_writer.specs.Sheets.{heading, compare_piece, operation_piece, ending};
ghost use Rattle.sheet_writer.specs.Writing.{fits};

use cam::fault::{Fault, Reason};
use march::element::{Comparison, TestOperation};
use march::operations::Order;

// How an element ends, and how a sheet ends.
pub const ENDING: &[u8] = b")\n";

// Asks whether a piece fits into a buffer from a place on (61). They come apart, since the buffer comes with each call.
pub(crate) fn ask_room(buffer: &[u8], at: usize, piece: &[u8]) -> Result<(), Fault>
    ensures asks_room { Asks (ask (fits at piece.now buffer.now) 61 ∷ []) result }
{
    if at > buffer.len() || piece.len() > buffer.len() - at {
        return Err(Fault::of_call(Reason::PieceDoesNotFit));
    }
    Ok(())
}

// Before an ending: does it fit (61), and is something inside what it ends (62)? Buffer and place come apart here too.
pub(crate) fn ask_ending(buffer: &[u8], at: usize, inside: u8) -> Result<(), Fault>
    ensures asks_in_order { Asks (ask (fits at ending buffer.now) 61 ∷ ask (nat_lt 0 inside) 62 ∷ []) result }
{
    ask_room(buffer, at, ENDING)?;
    if inside == 0 {
        return Err(Fault::of_call(Reason::NothingInside));
    }
    Ok(())
}

// How an element begins. Texts and no `Display`, since a piece's length is asked before any of it is written.
pub fn heading(order: Order) -> &'static [u8]
    ensures heading_of_order { result.now ≡ heading order }
{
    match order {
        Order::Up => b"(up",
        Order::Down => b"(down",
        Order::Columns => b"(columns",
    }
}

fn compare_piece(comparison: Comparison) -> &'static [u8]
    ensures piece_of_compare { result.now ≡ compare_piece comparison.bit comparison.hit }
{
    match (comparison.bit, comparison.hit) {
        (false, false) => b" (c 0 none)",
        (false, true) => b" (c 0 hit)",
        (true, false) => b" (c 1 none)",
        (true, true) => b" (c 1 hit)",
    }
}

// An operation, with the space before it.
pub fn operation_piece(operation: TestOperation) -> &'static [u8]
    ensures piece_of_operation { result.now ≡ operation_piece operation }
{
    match operation {
        TestOperation::Write(false) => b" (w 0)",
        TestOperation::Write(true) => b" (w 1)",
        TestOperation::Read(false) => b" (r 0)",
        TestOperation::Read(true) => b" (r 1)",
        TestOperation::Compare(comparison) => compare_piece(comparison),
        TestOperation::Erase => b" (e)",
    }
}
