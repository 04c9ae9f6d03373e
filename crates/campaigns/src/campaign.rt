// A campaign: a test is done with one fault at each place in turn.
ghost use Rattle.std.specs.Prelude.{◌≡◌, map, vec_len, count_by, MatchResult, OnOk};
ghost use Rattle.cam.specs.Refusals.{AsksIn};
ghost use Rattle.march.specs.Table.{elements_of};
ghost use Rattle.mlt1.specs.Mlt1.{mlt1};
ghost use Rattle.campaigns.specs.Tenths.{TenthsLaws};
ghost use Rattle.campaigns.specs.Faults.{campaign_faults};
ghost use Rattle.campaigns.specs.Campaigns.{row_of, full_row, detected_at, places, PlacesAre, DetectsAll, campaign_questions, Blank};

use crate::faults::{CampaignFault, faults_of_rows};
use crate::percent::tenths_of_percent;
use crate::records::CampaignRecords;
use crate::row::Row;
use cam::fault::Returned;
use cam::index::CellIndex;
use cam::size::Size;
use march::test::Test;
use planes::array::PlaneArray;
use planes::word::WordRecord;

// That the size stays is a fact of before and after, which no type holds; so each method says it.
impl CampaignRecords {
    // At how many of its places a fault is detected.
    fn count_detected(&mut self, test: &Test, fault: CampaignFault) -> u32
        ensures places_with_a_miss { result ≡ count_by (detected_at (elements_of test.now) fault self.old.size.words self.old.size.width) (places fault self.old.size.words self.old.size.width) }
        ensures size_stays { self.new.size ≡ self.old.size }
    {
        let size = self.size;
        let mut count = 0u32;
        // loops: of the records a chain whose closure works on them would tell nothing afterwards
        for word in 0..size.words {
            for column in 0..fault.places_in_word(size.width) {
                let detected = self.examine(test, fault, CellIndex::at(word, column));
                count += u32::from(detected);
            }
        }
        count
    }

    // The row of a fault.
    fn tell(&mut self, test: &Test, fault: CampaignFault) -> Row
        ensures row_of_fault { result ≡ row_of (elements_of test.now) self.old.size.words self.old.size.width fault }
        ensures size_stays { self.new.size ≡ self.old.size }
    {
        let total = self.size.words as u32 * fault.places_in_word(self.size.width) as u32;
        let detected = self.count_detected(test, fault);
        Row {
            detected,
            total,
            tenths: tenths_of_percent(detected, total),
        }
    }

    // Fills the row of each fault.
    fn fill(&mut self, test: &Test, rows: &mut [Row; 15])
        ensures row_of_each_fault { rows.new ≡ map (row_of (elements_of test.now) self.old.size.words self.old.size.width) campaign_faults }
        ensures size_stays { self.new.size ≡ self.old.size }
    {
        // rows by their numbers: tried with a zip of `iter_mut`, what was written to them stayed open
        for (number, fault) in faults_of_rows().iter().enumerate() {
            rows[number] = self.tell(test, *fault);
        }
    }
}

// Does the test with one fault at each place in turn in a new array of this size, for each of the fifteen faults, and
// fills a row for each: at how many places the test detected it, how many places there are, and the share in tenths of
// a percent, rounded down. An array is left at its first miss. A campaign asks for 1 to 16 words of 1 to 16 bits (81),
// then for a record for each word (57), and leaves the rows and the records alone where it refuses. The records come
// back blank, so that no planted fault stays behind in them.
#[tactic(auto, using(crate::proofs::Complete::detects_all, crate::proofs::Counts::places_are, crate::proofs::Tenths::tenths_laws))]
pub fn campaign(
    test: &Test,
    size: Size,
    records: Vec<WordRecord>,
    rows: &mut [Row; 15],
) -> Result<Vec<WordRecord>, Returned<Vec<WordRecord>>>
    ensures asks_size_then_records { AsksIn (λ e. e.fault) (campaign_questions size.words size.width (vec_len records)) result }
    ensures row_of_each_fault { MatchResult result (λ _. rows.new ≡ map (row_of (elements_of test.now) size.words size.width) campaign_faults) (λ _. rows.new ≡ rows.old) }
    ensures records_come_back { MatchResult result (λ back. Blank size.words back.items) (λ e. e.back ≡ records) }
    ensures mlt1_detects_every_place { elements_of test.now ≡ mlt1 → OnOk result (rows.new ≡ map (full_row size.words size.width) campaign_faults) }
    ensures mlt1_detects_at_every_size { DetectsAll mlt1 }
    ensures places_of_faults { PlacesAre }
    ensures laws_of_tenths { TenthsLaws }
{
    let mut own = CampaignRecords::new(records, size)?;
    own.fill(test, rows);
    Ok(PlaneArray::new(own.records, size).unwrap().into_records())
}
