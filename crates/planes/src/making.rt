// Making a plane array from the caller's records, and handing them back.
ghost use Rattle.std.specs.Prelude.{◌≡◌, ◌≤◌, true, false, [], ◌∷◌, length, vec_len, MatchResult, nat_le};
ghost use Rattle.cam.specs.Defects.{within_limits, flawless, cleared};
ghost use Rattle.cam.specs.Refusals.{AsksIn, ask};
ghost use Rattle.planes.specs.Planes.{build_of, state_of, blanked};

use crate::array::PlaneArray;
use crate::word::WordRecord;
use cam::fault::{Reason, Returned, granted};
use cam::size::{LARGEST, Size};

// Blanks the first `count` records.
fn blank_first(records: &mut [WordRecord], count: usize)
    requires within { count ≤ length records.old }
    ensures first_blank_others_stay { records.new ≡ blanked count records.old }
{
    records[..count].fill(WordRecord::blank());
}

impl PlaneArray {
    // Makes an array of this size without defects, bits 0 and marks clear. It asks for 1 to 256 words of 1 to 64 bits
    // (41), then for a record for each word (57). What the records hold does not matter; those past the last word are
    // left as they are.
    pub fn new(
        records: Vec<WordRecord>,
        size: Size,
    ) -> Result<PlaneArray, Returned<Vec<WordRecord>>>
        ensures asks_size_then_records { AsksIn (λ e. e.fault) (ask (within_limits size.words size.width) 41 ∷ ask (nat_le size.words (vec_len records)) 57 ∷ []) result }
        ensures made_flawless { MatchResult result (λ p. build_of p ≡ flawless size.words size.width) (λ e. e.back ≡ records) }
        ensures made_cleared { MatchResult result (λ p. state_of p ≡ cleared) (λ e. e.back ≡ records) }
        ensures later_records_stay { MatchResult result (λ p. p.records.items ≡ blanked size.words records.items) (λ e. e.back ≡ records) }
    {
        let asked = size.ask_fit(
            LARGEST,
            Reason::SizeOutsideLimits,
            size.words.into(),
            records.len(),
        );
        let mut records = granted(records, asked)?;
        blank_first(records.as_mut_slice(), size.words as usize);
        Ok(PlaneArray {
            records,
            size,
            tally: 0,
        })
    }

    // Ends the array and hands the caller's records back.
    pub fn into_records(self) -> Vec<WordRecord>
        ensures records_as_they_are { result ≡ self.records }
    {
        self.records
    }
}
