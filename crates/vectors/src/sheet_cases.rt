// Cases of sheets: a sheet is read, and the test is written again.
use crate::cases::Cases;
use report::printing::print_refused;
use sheets::sheet::read_sheet;
use std::io::Write;
use test_sheets::whole_tests::write_test;

pub(crate) fn answer_sheet(cases: &mut Cases<'_>) -> anyhow::Result<()> {
    let sheet = cases.payload()?;
    let mut buffer = cases.buffer(b'.')?;
    let written = read_sheet(sheet).and_then(|test| write_test(&test, buffer.as_mut_slice()));
    match written {
        Ok(length) => cases
            .out
            .write_all(&buffer.as_slice()[..length.min(buffer.len())])?,
        Err(fault) => print_refused(&mut cases.out, fault)?,
    }
    Ok(())
}
