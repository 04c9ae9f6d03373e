// The plane array itself. Its methods stand in other files, since they cite definitions that name it.
ghost use Rattle.std.specs.Prelude.{◌≡◌, ◌≤◌, vec_len};
ghost use Rattle.cam.specs.Model.{tally_cap};

use crate::word::WordRecord;
use cam::size::Size;

// An array over the caller's records, which it keeps until `into_records`. It uses one for each word, the first ones: the
// caller may hand over more and gets them all back, so the number of words stands beside them. The
// limits of the size stand here and in a cell field: a type for them would be opened at each use and save no line.
#[derive(Drop)]
pub struct PlaneArray {
    pub(crate) records: Vec<WordRecord>,
    pub(crate) size: Size,
    pub(crate) tally: u64,
    ghost few_words: { size.words ≤ 256 },
    ghost some_bits: { 1 ≤ size.width },
    ghost few_bits: { size.width ≤ 64 },
    ghost recorded: { size.words ≤ vec_len records },
    ghost tally_within: { tally ≤ tally_cap },
}
