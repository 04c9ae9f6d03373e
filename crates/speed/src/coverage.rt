// Work: a campaign of MLT-1 on arrays of 16 words of 16 bits.
use crate::checksum::{START, fold_all};
use cam::fault::Fault;
use cam::size::Size;
use campaigns::campaign::campaign;
use campaigns::row::Row;
use mlt1::table::mlt1_test;
use planes::word::WordRecord;

const SIZE: Size = Size {
    words: 16,
    width: 16,
};

// Takes a row into a checksum.
fn fold_row(sum: u64, row: &Row) -> u64 {
    let values = [
        u64::from(row.detected),
        u64::from(row.total),
        u64::from(row.tenths),
    ];
    fold_all(sum, &values)
}

pub(crate) fn campaign_rows(rt: &HostRuntime, repeats: u32) -> anyhow::Result<u64> {
    let test = mlt1_test();
    let mut records = vec![in rt.alloc(); WordRecord::blank(); 16]?;
    let mut rows = [Row::default(); 15];
    let mut sum = START;
    for _ in 0..repeats {
        records = campaign(&test, SIZE, records, &mut rows).map_err(Fault::from)?;
        sum = rows.iter().fold(sum, fold_row);
    }
    Ok(sum)
}
