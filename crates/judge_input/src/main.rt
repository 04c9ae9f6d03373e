// Judges the array that a text on standard input describes, and prints what it found, or why the text is refused.
#![tactic(auto)]

use anyhow::anyhow;
use array_text::array::RECORDS;
use planes::word::WordRecord;
use report::printing::{print_judgement, print_refused};
use std::alloc::Global;
use std::io;
use std::io::{BufWriter, Read, Write};
use text_judge::judging::{CHART_BYTES, judge_text};

// One byte more than the longest text has, so that a text that is too long is seen.
const TEXT_BYTES: u64 = 4097;

// Reads standard input, to its end or as far as a text can be.
fn read_text(heap: Global, rt: &impl Input) -> io::Result<Vec<u8>> {
    let mut text = Vec::new(heap);
    rt.reader().take(TEXT_BYTES).read_to_end(&mut text)?;
    Ok(text)
}

// Judges a text and prints the lines. A refused text is told there, and its error then tells the status to a script.
fn judge<W: Write>(heap: Global, out: &mut W, text: &[u8]) -> anyhow::Result<()> {
    let records = vec![in heap; WordRecord::blank(); RECORDS]?;
    let mut chart = vec![in heap; 0u8; CHART_BYTES]?;
    match judge_text(text, records, chart.as_mut_slice()) {
        Ok(judged) => {
            print_judgement(out, judged.judgement, chart.as_slice())?;
            Ok(())
        }
        Err(refused) => {
            print_refused(out, refused.fault)?;
            Err(anyhow!("refused"))
        }
    }
}

fn main(rt: HostRuntime) -> anyhow::Result<()> {
    let heap = rt.alloc();
    let text = read_text(heap, &rt)?;
    let mut out = BufWriter::new(heap, io::writer(&rt))?;
    let judged = judge(heap, &mut out, text.as_slice());
    out.flush()?;
    judged
}
