// Judges arrays of different makes: the same defects in a plane array and in a field of table cells, and a field of
// transistor cells with each single transistor stuck.
#![tactic(auto)]

use bench::judging::{Judgement, judge_array};
use cam::array::CamArray;
use cam::defect::{Pair, Storage, StorageDefect};
use cam::fault::Fault;
use cam::index::{CellIndex, WordIndex};
use cam::size::Size;
use cell_field::field::CellField;
use cells::table::TableCell;
use cells::transistor::{Position, TransistorCell, TransistorFault};
use planes::array::PlaneArray;
use planes::word::WordRecord;
use std::alloc::Global;

// Of the arrays with the same defects: cell (1, 2) is stuck at 0, cell (0, 0) answers the pair 01 wrongly, and the mark
// of word 1 is stuck.
const SIZE: Size = Size { words: 2, width: 3 };

const WORD: WordIndex = WordIndex { number: 1 };

const POSITIONS: [(Position, &str); 4] = [
    (Position::StorageA, "A storage"),
    (Position::SearchA, "A search"),
    (Position::StorageB, "B storage"),
    (Position::SearchB, "B search"),
];

const FAULTS: [(TransistorFault, &str); 2] = [
    (TransistorFault::Open, "open"),
    (TransistorFault::On, "on"),
];

// Judges an array of any make.
fn judged<C: CamArray + Drop>(array: C, chart: &mut [u8]) -> Result<Judgement, Fault> {
    let judged = judge_array(array, chart)?;
    Ok(judged.judgement)
}

fn judged_planes(records: Vec<WordRecord>, chart: &mut [u8]) -> Result<Judgement, Fault> {
    let pair = Pair {
        held: false,
        comparand: true,
    };
    let mut array = PlaneArray::new(records, SIZE)?;
    array.plant_storage(CellIndex::at(1, 2), StorageDefect::Sa0)?;
    array.plant_pair(CellIndex::at(0, 0), pair)?;
    array.plant_stuck_mark(WORD)?;
    judged(array, chart)
}

fn judged_cells(chart: &mut [u8]) -> Result<Judgement, Fault> {
    let mut cells = [TableCell::default(); 6];
    cells[0].wrong_set.has01 = true;
    cells[5].storage = Storage::Sa0;
    judged_field(CellField::new(&mut cells, SIZE)?, chart)
}

// A field that is handed on goes on a bench like any array: of a field with ghost fields the prover would not cover this.
fn judged_field(field: CellField<'_, TableCell>, chart: &mut [u8]) -> Result<Judgement, Fault> {
    let mut field = field;
    field.plant_stuck_mark(WORD)?;
    judged(field, chart)
}

// 2 words of 2 bits of transistor cells, one transistor of cell (1, 0) stuck.
fn judged_transistors(
    position: Position,
    fault: TransistorFault,
    chart: &mut [u8],
) -> Result<Judgement, Fault> {
    let mut cells = [TransistorCell::good(false); 4];
    cells[2] = cells[2].with_stuck(position, fault);
    let size = Size { words: 2, width: 2 };
    let field = CellField::new(&mut cells, size)?;
    judged(field, chart)
}

fn tell(rt: &impl Print, name: &str, judgement: Judgement, chart: &[u8]) -> anyhow::Result<()> {
    let finding = judgement.finding.number();
    let misses = judgement.finding.count();
    let cells = judgement.blemished;
    println!(rt;
        "{name}: finding {finding}, misses {misses}, blemished cells {cells}, chart {chart:?}"
    )?;
    Ok(())
}

fn tell_transistors(rt: &impl Print) -> anyhow::Result<()> {
    for (fault, state) in FAULTS {
        for (position, place) in POSITIONS {
            let mut chart = [0u8; 4];
            let judgement = judged_transistors(position, fault, &mut chart)?;
            let finding = judgement.finding.number();
            println!(rt; "{place} {state}: finding {finding}, chart {chart:?}")?;
        }
    }
    Ok(())
}

fn run(rt: &(impl Alloc<A = Global> + Print)) -> anyhow::Result<()> {
    let mut chart = [0u8; 6];
    let records = vec![in rt.alloc(); WordRecord::blank(); 2]?;
    let planes = judged_planes(records, &mut chart)?;
    tell(rt, "planes", planes, &chart)?;
    let cells = judged_cells(&mut chart)?;
    tell(rt, "table cells", cells, &chart)?;
    tell_transistors(rt)
}

fn main(rt: HostRuntime) -> anyhow::Result<()> {
    run(&rt)
}
