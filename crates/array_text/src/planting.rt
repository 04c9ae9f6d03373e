// Planting the defect of a line.
ghost use Rattle.std.specs.Prelude.{ℕ, List};
ghost use Rattle.planes.specs.Planes.{KeepsLater};
ghost use Rattle.array_lines.specs.Cells.{Inside};
ghost use Rattle.array_lines.specs.declared.cell.Defect.{Defect as LineDefect};
ghost use Rattle.array_text.specs.Left.{Holds, PlantingLeaves};

use array_lines::cell::Defect;
use cam::fault::{Fault, Reason};
use planes::array::PlaneArray;
use words::meaning::meaning_fault;

// Plants a defect inside the array, unless an earlier line described it: then the fault is at the line's bracket (43).
pub(crate) fn plant(array: &mut PlaneArray, defect: Defect, bracket: usize) -> Result<(), Fault>
    ensures new_or_repeated { (N W : ℕ) (ds : List LineDefect) → Holds N W ds array.old → Inside N W defect → PlantingLeaves N W ds defect bracket array.new result }
    ensures later_records_stay { KeepsLater array.old array.new }
{
    let planted = match defect {
        Defect::Storage { cell, defect } => array.plant_storage(cell, defect),
        Defect::Wrong { cell, pair } => array.plant_pair(cell, pair),
        Defect::Mark { word } => array.plant_stuck_mark(word),
    };
    planted.map_err(|_| meaning_fault(Reason::DefectRepeated, bracket))
}
