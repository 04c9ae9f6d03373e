// One place of a campaign.
ghost use Rattle.std.specs.Prelude.{◌≡◌, ◌<◌};
ghost use Rattle.march.specs.Table.{elements_of};
ghost use Rattle.campaigns.specs.Campaigns.{place_at, detected_at};

use crate::detecting::detects;
use crate::faults::CampaignFault;
use crate::planting::plant;
use crate::records::CampaignRecords;
use cam::index::CellIndex;
use march::test::Test;
use planes::array::PlaneArray;
use std::mem;

impl CampaignRecords {
    // Makes a new array, plants the fault at a place, and does the test up to its first miss: whether the fault was
    // detected.
    pub(crate) fn examine(&mut self, test: &Test, fault: CampaignFault, cell: CellIndex) -> bool
        requires word_inside { cell.word.number < self.old.size.words }
        requires column_inside { cell.column.number < self.old.size.width }
        ensures detected_at_place { result ≡ detected_at (elements_of test.now) fault self.old.size.words self.old.size.width (place_at cell.word.number cell.column.number) }
        ensures size_stays { self.new.size ≡ self.old.size }
    {
        // the array has the records meanwhile, and an empty vector, which needs no memory, their place
        let none = Vec::new(*self.records.allocator());
        let records = mem::replace(&mut self.records, none);
        let mut array = PlaneArray::new(records, self.size).unwrap();
        plant(&mut array, fault, cell);
        let detected = detects(test, &mut array);
        self.records = array.into_records();
        detected
    }
}
