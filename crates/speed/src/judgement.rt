// Work: a whole judgement of an array of the largest size, 256 words of 64 bits, with a handful of defects.
use crate::checksum::{START, fold_all};
use bench::judging::{Judged, Judgement, judge_array};
use cam::defect::{Pair, StorageDefect};
use cam::fault::Fault;
use cam::index::{CellIndex, WordIndex};
use cam::size::LARGEST;
use planes::array::PlaneArray;
use planes::word::WordRecord;

const CELLS: usize = LARGEST.words as usize * LARGEST.width as usize;

// The storage defects and the wrong pairs of the array, by word and column.
const STORAGE: [(u16, u8, StorageDefect); 4] = [
    (17, 5, StorageDefect::Sa0),
    (100, 63, StorageDefect::Sa1),
    (128, 31, StorageDefect::NoRise),
    (200, 10, StorageDefect::NoFall),
];

const PAIRS: [(u16, u8, Pair); 2] = [
    (
        0,
        0,
        Pair {
            held: false,
            comparand: true,
        },
    ),
    (
        255,
        63,
        Pair {
            held: true,
            comparand: false,
        },
    ),
];

// A handful of defects, one of each sort.
fn plant_some(array: &mut PlaneArray) -> Result<(), Fault> {
    for (word, column, defect) in STORAGE {
        array.plant_storage(CellIndex::at(word, column), defect)?;
    }
    for (word, column, pair) in PAIRS {
        array.plant_pair(CellIndex::at(word, column), pair)?;
    }
    array.plant_stuck_mark(WordIndex { number: 77 })
}

// The array under test, new.
fn made(records: Vec<WordRecord>) -> Result<PlaneArray, Fault> {
    let mut array = PlaneArray::new(records, LARGEST)?;
    plant_some(&mut array)?;
    Ok(array)
}

fn fold_judgement(sum: u64, judgement: Judgement, chart: &[u8]) -> u64 {
    let values = [
        u64::from(judgement.operations),
        u64::from(judgement.finding.count()),
        u64::from(judgement.charting),
        u64::from(judgement.blemished),
    ];
    fold_all(fold_all(sum, &values), chart)
}

pub(crate) fn judgements(rt: &HostRuntime, repeats: u32) -> anyhow::Result<u64> {
    let mut records = vec![in rt.alloc(); WordRecord::blank(); LARGEST.words as usize]?;
    let mut chart = vec![in rt.alloc(); 0u8; CELLS]?;
    let mut sum = START;
    for _ in 0..repeats {
        let array = made(records)?;
        let Judged { array, judgement } = judge_array(array, chart.as_mut_slice()).map_err(
            Fault::from,
        )?;
        records = array.into_records();
        sum = fold_judgement(sum, judgement, chart.as_slice());
    }
    Ok(sum)
}
