// A line from its pieces.
ghost use Rattle.std.specs.Prelude.{◌≡◌, ◌+◌, ◌≤◌, length, decimal};
ghost use Rattle.cam.specs.Buffers.{over};
ghost use Rattle.report.specs.Text.{AsksThenMakes};
ghost use Rattle.report.specs.Pieces.{line_of, longest};

use cam::buffer::put_text;
use cam::fault::{Fault, Reason};
use itoa::Buffer;

// Writes a number from a place of a buffer on, and gives the place after it. Both come apart, as for `put_text`.
fn put_number(buffer: &mut [u8], at: usize, number: u32) -> usize
    requires room { at + 10 ≤ length buffer.old }
    ensures written_over { buffer.new ≡ over buffer.old at (decimal number) }
    ensures place_after { result ≡ at + length (decimal number) }
    ensures at_most_ten { length (decimal number) ≤ 10 }
{
    put_text(buffer, at, Buffer::new().format(number).as_bytes())
}

// Makes a line of labels with a number after each, and an end, at the front of a buffer of 64 bytes or more (57), and
// gives its length. By hand and not by `write!`, which would tell a proof its bytes only of a `String`, on a heap.
pub(crate) fn line(buffer: &mut [u8], pieces: &[(&[u8], u32)], end: &[u8]) -> Result<usize, Fault>
    requires short { longest pieces.now + length end.now ≤ 64 }
    ensures asks_then_makes { AsksThenMakes (line_of pieces.now end.now) buffer.old buffer.new result }
{
    if buffer.len() < 64 {
        return Err(Fault::of_call(Reason::BufferTooShort));
    }
    let mut at = 0;
    for (label, number) in pieces {
        at = put_text(buffer, at, label);
        at = put_number(buffer, at, *number);
    }
    Ok(put_text(buffer, at, end))
}
