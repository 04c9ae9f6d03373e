// Judges an array and prints what it found. So far the array is one of its own, with two defects.
#![tactic(auto)]

use bench::judging::judge_array;
use cam::defect::{Pair, StorageDefect};
use cam::fault::Fault;
use cam::index::CellIndex;
use cam::size::Size;
use planes::array::PlaneArray;
use planes::word::WordRecord;
use report::printing::print_judgement;
use std::alloc::Global;
use std::io;

const SIZE: Size = Size { words: 2, width: 3 };

// The example: 2 words of 3 bits, cell (1, 2) always holds 0, and cell (0, 0) answers the pair 01 wrongly.
fn example_array(heap: Global) -> anyhow::Result<PlaneArray> {
    let records = vec![in heap; WordRecord::blank(); 2]?;
    let mut array = PlaneArray::new(records, SIZE).map_err(Fault::from)?;
    array.plant_storage(CellIndex::at(1, 2), StorageDefect::Sa0)?;
    let pair = Pair {
        held: false,
        comparand: true,
    };
    array.plant_pair(CellIndex::at(0, 0), pair)?;
    Ok(array)
}

fn judge_example(heap: Global, rt: &impl Print) -> anyhow::Result<()> {
    let array = example_array(heap)?;
    let mut chart = vec![in heap; 0u8; 6]?;
    let judged = judge_array(array, chart.as_mut_slice()).map_err(Fault::from)?;
    print_judgement(&mut io::writer(rt), judged.judgement, chart.as_slice())?;
    Ok(())
}

fn main(rt: HostRuntime) -> anyhow::Result<()> {
    judge_example(rt.alloc(), &rt)
}
