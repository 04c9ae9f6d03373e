// Cases of the judging of an array text.
use crate::cases::Cases;
use array_text::array::RECORDS;
use planes::word::WordRecord;
use report::printing::{print_judgement, print_refused};
use text_judge::judging::{CHART_BYTES, judge_text};

pub(crate) fn answer_judge(cases: &mut Cases<'_>) -> anyhow::Result<()> {
    let text = cases.payload()?;
    let records = vec![in cases.heap; WordRecord::blank(); RECORDS]?;
    let mut chart = vec![in cases.heap; 0u8; CHART_BYTES]?;
    match judge_text(text, records, chart.as_mut_slice()) {
        Ok(judged) => print_judgement(&mut cases.out, judged.judgement, chart.as_slice())?,
        Err(refused) => print_refused(&mut cases.out, refused.into())?,
    }
    Ok(())
}
