// The sheet of MLT-1.
ghost use Rattle.std.specs.Prelude.{◌≡◌, [], ◌∷◌, length, codes, MatchResult};
ghost use Rattle.cam.specs.Buffers.{over};
ghost use Rattle.cam.specs.Refusals.{Asks, ask};
ghost use Rattle.mlt1.specs.Mlt1.{mlt1};
ghost use Rattle.sheet_writer.specs.Writing.{fits};
ghost use Rattle.test_sheets.specs.Mlt1Sheet.{mlt1_sheet};
ghost use Rattle.test_sheets.specs.RoundTrip.{Says};

use crate::whole_tests::write_test;
use cam::fault::Fault;
use mlt1::table::mlt1_test;

// Writes the sheet of MLT-1 at the front of the buffer, and answers its length. The sheet must fit (61).
pub fn write_mlt1(buffer: &mut [u8]) -> Result<usize, Fault>
    ensures asks_room { Asks (ask (fits 0 mlt1_sheet buffer.old) 61 ∷ []) result }
    ensures sheet_written { MatchResult result (λ n. (n ≡ length mlt1_sheet) × (buffer.new ≡ over buffer.old 0 mlt1_sheet)) (λ _. buffer.new ≡ buffer.old) }
    ensures reads_as_mlt1 { Says mlt1_sheet (codes "mlt1") mlt1 }
{
    write_test(&mlt1_test(), buffer)
}
