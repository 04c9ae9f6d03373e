// Campaigns of MLT-1, and of MLT-1 without its columns elements, as figures; and a trial of the second.
#![tactic(auto)]

use cam::defect::Pair;
use cam::fault::Fault;
use cam::index::CellIndex;
use cam::size::Size;
use campaigns::campaign::campaign;
use campaigns::row::Row;
use march::test::Test;
use mlt1::table::mlt1_test;
use planes::array::PlaneArray;
use planes::word::WordRecord;
use sheets::sheet::read_sheet;
use trials::result::TrialResult;
use trials::trial::trial;

// MLT-1 without its columns elements.
const BLIND: &[u8] =
    b"(test blind\n(up (w 1))\n(up (w 0) (c 0 hit) (w 1))\n(up (r 1) (w 0))\n(down (w 1) (c 1 hit) (w 0))\n(down (r 0) (w 1))\n)\n";

fn rows_of(rt: &HostRuntime, test: &Test, size: Size) -> anyhow::Result<[Row; 15]> {
    let records = vec![in rt.alloc(); WordRecord::blank(); 16]?;
    let mut rows = [Row::default(); 15];
    campaign(test, size, records, &mut rows).map_err(Fault::from)?;
    Ok(rows)
}

// How many of the fifteen rows have every place detected.
fn full_rows(rows: &[Row; 15]) -> usize {
    rows.iter()
        .filter(|row| row.tenths == 1000 && row.detected == row.total)
        .count()
}

fn tell_full(rt: &HostRuntime, test: &Test, size: Size) -> anyhow::Result<()> {
    let full = full_rows(&rows_of(rt, test, size)?);
    let Size { words, width } = size;
    println!(rt; "mlt1 {words} {width}: {full} rows of 15 full")?;
    Ok(())
}

fn tell_rows(rt: &HostRuntime, test: &Test, size: Size) -> anyhow::Result<()> {
    let Size { words, width } = size;
    println!(rt; "blind {words} {width}:")?;
    for row in rows_of(rt, test, size)? {
        let Row {
            detected,
            total,
            tenths,
        } = row;
        println!(rt; "{detected} of {total}, {tenths}")?;
    }
    Ok(())
}

// A trial on 2 words of 2 bits, where cell (1, 0) never matches (SMMF).
fn tell_trial(rt: &HostRuntime, test: &Test) -> anyhow::Result<()> {
    let records = vec![in rt.alloc(); WordRecord::blank(); 2]?;
    let size = Size { words: 2, width: 2 };
    let mut array = PlaneArray::new(records, size).map_err(Fault::from)?;
    let cell = CellIndex::at(1, 0);
    for bit in [false, true] {
        let pair = Pair {
            held: bit,
            comparand: bit,
        };
        array.plant_pair(cell, pair)?;
    }
    let mut outcomes = [9u8; 10];
    let TrialResult { operations, misses } = trial(test, &mut array, &mut outcomes)?;
    println!(rt; "trial: {operations} operations, {misses} misses, outcomes {outcomes:?}")?;
    Ok(())
}

fn main(rt: HostRuntime) -> anyhow::Result<()> {
    let mlt1 = mlt1_test();
    for (words, width) in [(1, 1), (2, 3), (16, 16)] {
        tell_full(&rt, &mlt1, Size { words, width })?;
    }
    let blind = read_sheet(BLIND)?;
    tell_rows(&rt, &blind, Size { words: 2, width: 3 })?;
    tell_trial(&rt, &blind)
}
