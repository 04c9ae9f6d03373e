// Planting one fault in an array that has none at that place.
ghost use Rattle.std.specs.Prelude.{◌≡◌, true, false};
ghost use Rattle.cam.specs.Defects.{has_cell, in_set, is_good};
ghost use Rattle.planes.specs.Planes.{build_of, state_of};
ghost use Rattle.campaigns.specs.Faults.{with_pairs, with_fault, settled_by};

use crate::faults::CampaignFault;
use cam::defect::{Pair, WrongSet};
use cam::index::CellIndex;
use planes::array::PlaneArray;

// The four pairs.
const PAIRS: [Pair; 4] = [
    Pair {
        held: false,
        comparand: false,
    },
    Pair {
        held: false,
        comparand: true,
    },
    Pair {
        held: true,
        comparand: true,
    },
    Pair {
        held: true,
        comparand: false,
    },
];

// Puts all pairs of a set into a cell's wrong set.
fn plant_pairs(array: &mut PlaneArray, cell: CellIndex, wrong: WrongSet)
    requires inside { has_cell (build_of array.old) cell.word.number cell.column.number ≡ true }
    ensures pairs_planted { build_of array.new ≡ with_pairs cell.word.number cell.column.number (in_set wrong) (build_of array.old) }
    ensures state_stays { state_of array.new ≡ state_of array.old }
{
    for pair in PAIRS {
        if wrong.contains(pair) {
            let _ = array.plant_pair(cell, pair);
        }
    }
}

// Plants a fault.
pub(crate) fn plant(array: &mut PlaneArray, fault: CampaignFault, cell: CellIndex)
    requires inside { has_cell (build_of array.old) cell.word.number cell.column.number ≡ true }
    requires good_storage { is_good ((build_of array.old).storage cell.word.number cell.column.number) ≡ true }
    requires free_mark { (build_of array.old).stuck cell.word.number ≡ false }
    ensures fault_planted { build_of array.new ≡ with_fault fault cell.word.number cell.column.number (build_of array.old) }
    ensures state_settled { state_of array.new ≡ settled_by fault cell.word.number cell.column.number (state_of array.old) }
{
    match fault {
        CampaignFault::Comparison(named) => plant_pairs(array, cell, named.wrong_set()),
        CampaignFault::Storage(defect) => {
            let _ = array.plant_storage(cell, defect);
        }
        CampaignFault::StuckMark => {
            let _ = array.plant_stuck_mark(cell.word);
        }
    }
}
