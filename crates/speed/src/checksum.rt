// Checksums of results, so that every result is made and can be compared with that of another program.
use planes::word::WordRecord;

pub const START: u64 = 0xcbf2_9ce4_8422_2325;

const FACTOR: u64 = 0x100_0000_01b3;

// Takes a value into a checksum.
pub(crate) fn fold(sum: u64, value: u64) -> u64 {
    (sum ^ value).wrapping_mul(FACTOR)
}

// Takes values into a checksum.
pub(crate) fn fold_all<T: Copy + Into<u64>>(sum: u64, values: &[T]) -> u64 {
    values
        .iter()
        .fold(sum, |sum, value| fold(sum, (*value).into()))
}

// Takes a record, but for its mark, into a checksum.
pub(crate) fn fold_record(sum: u64, record: &WordRecord) -> u64 {
    let values = [
        record.held,
        u64::from(record.stuck),
        record.sa0,
        record.sa1,
        record.norise,
        record.nofall,
        record.wrong00,
        record.wrong01,
        record.wrong11,
        record.wrong10,
    ];
    fold_all(sum, &values)
}

// Takes records into a checksum.
pub(crate) fn fold_records(sum: u64, records: &[WordRecord]) -> u64 {
    records.iter().fold(sum, fold_record)
}
