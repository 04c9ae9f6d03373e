// Answers test cases. Each case of the input is done by the public calls of the libraries, and its answer is printed, so
// that it can be compared with what an independent program prints (reference/README.md has the format).
#![tactic(auto)]

mod bench_calls;
mod bench_cases;
mod campaign_cases;
mod cases;
mod cell_cases;
mod cells_read;
mod judge_cases;
mod output;
mod scanner;
mod sheet_cases;
mod tickets;
mod trial_cases;
mod writer_cases;

use anyhow::bail;
use bench_cases::answer_bench;
use campaign_cases::answer_campaign;
use cases::Cases;
use cell_cases::answer_cells;
use judge_cases::answer_judge;
use sheet_cases::answer_sheet;
use std::io::{BufWriter, Read, Write};
use trial_cases::answer_trial;
use writer_cases::answer_writer;

// Answers a case of this kind.
fn answer_case(cases: &mut Cases<'_>, kind: &[u8]) -> anyhow::Result<()> {
    match kind {
        b"judge" => answer_judge(cases),
        b"sheet" => answer_sheet(cases),
        b"writer" => answer_writer(cases),
        b"bench" => answer_bench(cases),
        b"trial" => answer_trial(cases),
        b"campaign" => answer_campaign(cases),
        b"cells" => answer_cells(cases),
        _ => bail!("a case of no known kind"),
    }
}

fn answer_all(rt: &HostRuntime) -> anyhow::Result<()> {
    let mut text = Vec::new(rt.alloc());
    rt.stdin().read_to_end(&mut text)?;
    let out = BufWriter::new(rt.alloc(), rt.stdout())?;
    let mut cases = Cases::new(rt.alloc(), text.as_slice(), out);
    // A case has a byte or more, so that so many turns are enough.
    for _ in 0..text.len() {
        let Some(kind) = cases.next_kind() else {
            break;
        };
        answer_case(&mut cases, kind)?;
        cases.end()?;
    }
    cases.out.flush()?;
    Ok(())
}

fn main(rt: HostRuntime) -> anyhow::Result<()> {
    answer_all(&rt)
}
