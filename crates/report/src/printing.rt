// Printing a judgement or a refusal to any writer.
ghost use Rattle.std.specs.Prelude.{◌≡◌, ℕ, ◌*◌, ◌<◌, min, List, replicate, take, Ok, IsOk, OnOk};
ghost use Rattle.std.specs.Fn.{FnOnceReturnsAtMut};
ghost use Rattle.std.specs.Io.KnownBytes.{Appends};
ghost use Rattle.cam.specs.Refusals.{reason_number, layer_number};
ghost use Rattle.report.specs.Text.{refused_line, largest_place};
ghost use Rattle.report.specs.Printed.{marked_line, cell_lines, judgement_lines};

use crate::lines::{array_line, cell_line, chart_line, refused_line, run_line};
use bench::judging::Judgement;
use cam::fault::Fault;
use cam::index::CellIndex;
use cam::size::Size;
use std::io;
use std::io::Write;

// Makes a line in a buffer of 64 bytes, which grant every line, and prints it.
fn print_line<W: Write, F: FnOnce(&mut [u8]) -> Result<usize, Fault>>(
    out: &mut W,
    make: F,
) -> io::Result<()>
    requires callable { F.IsAlwaysCallable make }
    requires granted { (r : _) (new : _) → FnOnceReturnsAtMut F.FnOnce make (replicate 64 0) r new → IsOk r }
    ensures line_appended { OnOk result ((n : ℕ) × (new : List ℕ) × FnOnceReturnsAtMut F.FnOnce make (replicate 64 0) (Ok n) new × Appends (W.contents out.old) (W.contents out.new) (take n new)) }
{
    let mut buffer = [0u8; 64];
    let length = make(&mut buffer).unwrap();
    out.write_all(&buffer[..length.min(64)])
}

// Prints the line of the cell at a place of a chart.
fn print_cell<W: Write>(out: &mut W, size: Size, place: usize, byte: u8) -> io::Result<()>
    requires place_of_a_cell { place < size.words * size.width }
    ensures line_appended { OnOk result (Appends (W.contents out.old) (W.contents out.new) (marked_line size.width place byte)) }
{
    if byte == 0 {
        return Ok(());
    }
    let width = size.width as usize;
    let cell = CellIndex::at((place / width) as u16, (place % width) as u8);
    print_line(out, |buffer| cell_line(buffer, cell, byte))
}

// Prints a line for each cell whose byte of a chart is above 0.
fn print_cells<W: Write>(out: &mut W, size: Size, chart: &[u8]) -> io::Result<()>
    ensures lines_appended { OnOk result (Appends (W.contents out.old) (W.contents out.new) (cell_lines size.width (take (size.words * size.width) chart.now))) }
{
    let end = chart.len().min(size.cells() as usize);
    for (place, byte) in chart[..end].iter().enumerate() {
        print_cell(out, size, place, *byte)?;
    }
    Ok(())
}

// Prints the lines of the array, the run and the chart, and a line for each cell that the chart shows as blemished.
pub fn print_judgement<W: Write>(out: &mut W, judgement: Judgement, chart: &[u8]) -> io::Result<()>
    ensures lines_appended { OnOk result (Appends (W.contents out.old) (W.contents out.new) (judgement_lines judgement chart.now)) }
{
    print_line(out, |buffer| array_line(buffer, judgement.size))?;
    print_line(out, |buffer| {
        run_line(buffer, judgement.operations, judgement.finding.count())
    })?;
    print_line(out, |buffer| {
        chart_line(buffer, judgement.charting, judgement.blemished)
    })?;
    print_cells(out, judgement.size, chart)
}

// Prints the line of a refusal.
pub fn print_refused<W: Write>(out: &mut W, fault: Fault) -> io::Result<()>
    ensures line_appended { OnOk result (Appends (W.contents out.old) (W.contents out.new) (refused_line (reason_number fault.reason) (layer_number fault.layer) (min fault.place largest_place))) }
{
    print_line(out, |buffer| refused_line(buffer, fault))
}
