// Cases of cell fields.
use crate::cases::Cases;
use crate::cells_read::{Described, cells_of};
use crate::output::{put_done, put_found, put_numbers, put_refused};
use crate::scanner::Scanner;
use anyhow::bail;
use bench::bench::Bench;
use cam::array::CamArray;
use cam::fault::Fault;
use cam::index::WordIndex;
use cell_field::field::CellField;
use cells::kind::CellKind;
use cells::table::TableCell;
use cells::transistor::TransistorCell;
use std::io::Write;

// The run and the chart of a bench over an array.
fn put_judged<C: CamArray + Drop>(
    cases: &mut Cases<'_>,
    array: C,
    chart: &mut [u8],
) -> anyhow::Result<()> {
    let out = &mut cases.out;
    let mut bench = Bench::new(array);
    put_found(out, bench.run_whole())?;
    put_found(out, bench.chart(chart))?;
    out.write_all(b"chart")?;
    put_numbers(out, chart)
}

// What each lent cell holds.
fn put_held<C: CellKind>(cases: &mut Cases<'_>, cells: &[C]) -> anyhow::Result<()> {
    let out = &mut cases.out;
    out.write_all(b"held ")?;
    for cell in cells {
        out.write_all(if cell.held() { b"1" } else { b"0" })?;
    }
    out.write_all(b"\n")?;
    Ok(())
}

// Makes a field of the cells, plants its marks, and judges it.
fn answer_field<C: Described>(cases: &mut Cases<'_>, lines: &[u8]) -> anyhow::Result<()> {
    let mut lines = Scanner::new(lines);
    let size = cases.size()?;
    let count = cases.header.number()?;
    let marks = cases.header.number::<usize>()?;
    let mut cells = cells_of::<C>(cases.heap, &mut lines, count)?;
    let mut chart = vec![in cases.heap; 0u8; size.cells() as usize]?;
    let mut field = match CellField::new(cells.as_mut_slice(), size) {
        Ok(field) => field,
        Err(refused) => return put_refused(&mut cases.out, Fault::from(refused)),
    };
    for _ in 0..marks {
        let number = Scanner::new(lines.line()).number()?;
        put_done(&mut cases.out, field.plant_stuck_mark(WordIndex { number }))?;
    }
    put_judged(cases, field, chart.as_mut_slice())?;
    put_held(cases, cells.as_slice())
}

pub(crate) fn answer_cells(cases: &mut Cases<'_>) -> anyhow::Result<()> {
    let lines = cases.payload()?;
    match cases.header.word() {
        b"0" => answer_field::<TableCell>(cases, lines),
        b"1" => answer_field::<TransistorCell>(cases, lines),
        _ => bail!("no such make of cell"),
    }
}
