// The table cell.
ghost use Rattle.std.specs.Prelude.{◌≡◌};
ghost use Rattle.cells.specs.Table.{table_meaning, table_steady};

use crate::kind::CellKind;
use cam::defect::{Pair, Storage, WrongSet};

// A cell that stores its held bit, its storage and its wrong set as they are. An sa0 cell counts as holding 0 and an sa1
// cell as holding 1, whatever `held` says. The default is a sound cell that holds 0.
#[derive(Clone, Copy, Default, PartialEq, Eq)]
pub struct TableCell {
    pub held: bool,
    pub storage: Storage,
    pub wrong_set: WrongSet,
}

impl CellKind for TableCell {
    ghost meaning = { table_meaning };

    ghost steady = { table_steady };

    fn take(&mut self, bit: bool) {
        self.held = match self.storage {
            Storage::Good => bit,
            Storage::Sa0 => false,
            Storage::Sa1 => true,
            Storage::NoRise => self.held && bit,
            Storage::NoFall => self.held || bit,
        };
    }

    fn held(&self) -> bool {
        // A match of its own: of the five storages, two say what a cell shows and four what it takes.
        match self.storage {
            Storage::Sa0 => false,
            Storage::Sa1 => true,
            _ => self.held,
        }
    }

    fn answer(&self, comparand: bool) -> bool {
        let held = self.held();
        let reversed = self.wrong_set.contains(Pair { held, comparand });
        (held == comparand) != reversed
    }
}
