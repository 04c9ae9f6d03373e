// The lines of a judgement. Each call asks for a buffer of 64 bytes or more (57), makes its line at the front of it, and
// gives the line's length; the bytes after the line are left alone.
ghost use Rattle.std.specs.Prelude.{◌≡◌, min};
ghost use Rattle.cam.specs.Refusals.{reason_number, layer_number};
ghost use Rattle.report.specs.Text.{array_line, run_line, chart_line, cell_line, refused_line, largest_place, AsksThenMakes};

use crate::pieces::line;
use cam::fault::Fault;
use cam::index::CellIndex;
use cam::size::Size;

// `array N W`
pub fn array_line(buffer: &mut [u8], size: Size) -> Result<usize, Fault>
    ensures asks_then_makes { AsksThenMakes (array_line size.words size.width) buffer.old buffer.new result }
{
    let Size { words, width } = size;
    line(
        buffer,
        &[(b"array ", words.into()), (b" ", width.into())],
        b"\n",
    )
}

// `run OPERATIONS misses MISSES sound`, or `faulty` at the end where there are misses
pub fn run_line(buffer: &mut [u8], operations: u32, misses: u32) -> Result<usize, Fault>
    ensures asks_then_makes { AsksThenMakes (run_line operations misses) buffer.old buffer.new result }
{
    let end: &[u8] = if misses == 0 {
        b" sound\n"
    } else {
        b" faulty\n"
    };
    line(buffer, &[(b"run ", operations), (b" misses ", misses)], end)
}

// `chart OPERATIONS cells CELLS`
pub fn chart_line(buffer: &mut [u8], operations: u32, cells: u32) -> Result<usize, Fault>
    ensures asks_then_makes { AsksThenMakes (chart_line operations cells) buffer.old buffer.new result }
{
    line(
        buffer,
        &[(b"chart ", operations), (b" cells ", cells)],
        b"\n",
    )
}

// `cell WORD COLUMN BYTE`
pub fn cell_line(buffer: &mut [u8], cell: CellIndex, byte: u8) -> Result<usize, Fault>
    ensures asks_then_makes { AsksThenMakes (cell_line cell.word.number cell.column.number byte) buffer.old buffer.new result }
{
    let word = cell.word.number;
    let column = cell.column.number;
    let pieces: [(&[u8], u32); 3] = [
        (b"cell ", word.into()),
        (b" ", column.into()),
        (b" ", byte.into()),
    ];
    line(buffer, &pieces, b"\n")
}

// A place as a line writes it; past 4,294,967,295, where no text has a fault, as that number.
fn written_place(place: usize) -> u32
    ensures place_up_to_the_largest { result ≡ min place largest_place }
{
    u32::try_from(place).unwrap_or(u32::MAX)
}

// `refused NUMBER LAYER PLACE`
pub fn refused_line(buffer: &mut [u8], fault: Fault) -> Result<usize, Fault>
    ensures asks_then_makes { AsksThenMakes (refused_line (reason_number fault.reason) (layer_number fault.layer) (min fault.place largest_place)) buffer.old buffer.new result }
{
    let number = fault.number();
    let layer = fault.layer_number();
    let place = written_place(fault.place);
    let pieces: [(&[u8], u32); 3] = [
        (b"refused ", number.into()),
        (b" ", layer.into()),
        (b" ", place),
    ];
    line(buffer, &pieces, b"\n")
}
