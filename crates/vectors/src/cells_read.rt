// Cells, read from their lines.
use crate::scanner::Scanner;
use cam::defect::{Storage, WrongSet};
use cells::kind::CellKind;
use cells::table::TableCell;
use cells::transistor::{Position, TransistorCell, TransistorFault};
use std::alloc::Global;

// A make of cell that a line describes.
pub trait Described: CellKind + Drop {
    fn described(words: Scanner<'_>) -> anyhow::Result<Self>;
}

const STORAGES: [Storage; 5] = [
    Storage::Good,
    Storage::Sa0,
    Storage::Sa1,
    Storage::NoRise,
    Storage::NoFall,
];

// The pairs of a sum of 1, 2, 4 and 8 for 00, 01, 11 and 10.
fn wrong_set_of(sum: u8) -> WrongSet {
    WrongSet {
        has00: sum & 1 != 0,
        has01: sum & 2 != 0,
        has11: sum & 4 != 0,
        has10: sum & 8 != 0,
    }
}

impl Described for TableCell {
    fn described(mut words: Scanner<'_>) -> anyhow::Result<TableCell> {
        Ok(TableCell {
            held: words.bit()?,
            storage: words.choice(&STORAGES, "no such storage")?,
            wrong_set: wrong_set_of(words.number()?),
        })
    }
}

// The transistors in the order of a line.
const POSITIONS: [Position; 4] = [
    Position::StorageA,
    Position::SearchA,
    Position::StorageB,
    Position::SearchB,
];

const LATCHES: [Option<bool>; 3] = [None, Some(false), Some(true)];

const TRANSISTORS: [Option<TransistorFault>; 3] = [
    None,
    Some(TransistorFault::Open),
    Some(TransistorFault::On),
];

impl Described for TransistorCell {
    fn described(mut words: Scanner<'_>) -> anyhow::Result<TransistorCell> {
        let mut cell = TransistorCell::good(words.bit()?);
        cell.latch = words.choice(&LATCHES, "no such storage of a transistor cell")?;
        for position in POSITIONS {
            if let Some(fault) = words.choice(&TRANSISTORS, "no such state of a transistor")? {
                cell = cell.with_stuck(position, fault);
            }
        }
        Ok(cell)
    }
}

// The cells of the next lines.
pub(crate) fn cells_of<C: Described>(
    heap: Global,
    lines: &mut Scanner<'_>,
    count: usize,
) -> anyhow::Result<Vec<C>> {
    let mut cells = Vec::new(heap);
    for _ in 0..count {
        cells.push(C::described(Scanner::new(lines.line()))?)?;
    }
    Ok(cells)
}
