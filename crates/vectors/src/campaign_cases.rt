// Cases of campaigns.
use crate::cases::Cases;
use crate::output::put_refused;
use campaigns::campaign::campaign;
use campaigns::row::Row;
use planes::word::WordRecord;
use std::io::Write;

pub(crate) fn answer_campaign(cases: &mut Cases<'_>) -> anyhow::Result<()> {
    let test = cases.test("the sheet of a campaign is refused")?;
    let size = cases.size()?;
    let records = vec![in cases.heap; WordRecord::blank(); cases.header.number()?]?;
    let mut rows = [Row::default(); 15];
    if let Err(refused) = campaign(&test, size, records, &mut rows) {
        return put_refused(&mut cases.out, refused.into());
    }
    for row in rows {
        let Row {
            detected,
            total,
            tenths,
        } = row;
        writeln!(cases.out, "{detected} {total} {tenths}")?;
    }
    Ok(())
}
