// Cases of trials.
use crate::cases::Cases;
use crate::output::put_refused;
use std::io::Write;
use trials::trial::trial;

// What the buffer of outcomes holds before the first round.
const FILL: u8 = 2;

pub(crate) fn answer_trial(cases: &mut Cases<'_>) -> anyhow::Result<()> {
    let test = cases.test("the sheet of a trial is refused")?;
    let mut array = cases.array()?;
    let mut outcomes = cases.buffer(FILL)?;
    for _ in 0..cases.header.number::<u16>()? {
        match trial(&test, &mut array, outcomes.as_mut_slice()) {
            Ok(result) => {
                let operations = result.operations;
                let misses = result.misses;
                writeln!(cases.out, "{operations} {misses}")?;
            }
            Err(fault) => put_refused(&mut cases.out, fault)?,
        }
        // the outcomes as digits
        for outcome in outcomes.as_slice() {
            let digit = b'0' + (*outcome).min(9);
            cases.out.write_all(&[digit])?;
        }
        cases.out.write_all(b"\n")?;
    }
    Ok(())
}
