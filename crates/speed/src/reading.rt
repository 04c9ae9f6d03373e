// Work: reading the largest array text.
use crate::checksum::{START, fold_record, fold_records};
use array_text::array::{RECORDS, read_array};
use cam::fault::Fault;
use planes::word::WordRecord;
use std::alloc::{AllocError, Global};

const LONGEST: usize = 4096;

// What the lines say of their cells, in turn.
const SAID: [&str; 8] = [
    "sa0",
    "sa1",
    "norise",
    "nofall",
    "wrong 0 0",
    "wrong 0 1",
    "wrong 1 1",
    "wrong 1 0",
];

// The line of a word: it has one cell with a defect.
fn cell_line(heap: Global, word: usize) -> Result<String, AllocError> {
    let column = word % 64 * 7 % 64;
    let said = SAID[word % 8];
    format!(in heap; "(cell {word} {column} {said})\n")
}

// The largest text: 4,096 bytes with as many lines as fit, one for each word from 0 on, and then spaces.
fn largest_text(heap: Global) -> anyhow::Result<Vec<u8>> {
    let mut text = b"(array 256 64\n".to_vec(heap)?;
    for word in 0..256usize {
        let line = cell_line(heap, word)?;
        if text.len().saturating_add(line.len()) > LONGEST - 2 {
            break;
        }
        text.extend_from_slice(line.as_bytes())?;
    }
    text.extend_from_slice(b")\n")?;
    text.resize(LONGEST, b' ')?;
    Ok(text)
}

// Reads the text that often. Each reading takes one record into the checksum, the last one all of them.
pub(crate) fn readings(rt: &HostRuntime, repeats: u32) -> anyhow::Result<u64> {
    let text = largest_text(rt.alloc())?;
    let mut records = vec![in rt.alloc(); WordRecord::blank(); RECORDS]?;
    let mut sum = START;
    for number in 0..repeats {
        let array = read_array(text.as_slice(), records).map_err(Fault::from)?;
        records = array.into_records();
        if let Some(record) = records.get((number % 256) as usize) {
            sum = fold_record(sum, record);
        }
    }
    Ok(fold_records(sum, records.as_slice()))
}
