// The lines of an array text, read into the array.
ghost use Rattle.std.specs.Prelude.{ℕ, List, []};
ghost use Rattle.array_lines.specs.declared.cell.Defect.{Defect};
ghost use Rattle.planes.specs.Planes.{KeepsLater};
ghost use Rattle.words.specs.Going.{GoesOn};
ghost use Rattle.words.specs.Readings.{reached};
ghost use Rattle.array_text.specs.Grammar.{LineAfter, Lines, Rest};
ghost use Rattle.array_text.specs.Left.{Holds, Leaves, RestLeaves};

use crate::planting::plant;
use array_lines::line::read_line;
use cam::fault::Fault;
use cam::size::size_of;
use planes::array::PlaneArray;
use words::cursor::Cursor;
use words::form::not_wanted;
use words::token::Kind;

// Reads a line whose bracket stood at this place, and plants its defect.
fn add_line(cursor: &mut Cursor, bracket: usize, array: &mut PlaneArray) -> Result<(), Fault>
    ensures reading { (N W : ℕ) (ds : List Defect) → Holds N W ds array.old → Leaves (LineAfter N W cursor.old.text.now ds bracket cursor.old.at) N W array.new (reached cursor.new.at result) }
    ensures later_records_stay { KeepsLater array.old array.new }
    ensures goes_on { GoesOn cursor.old cursor.new }
{
    match read_line(cursor, size_of(array))? {
        Some(defect) => plant(array, defect, bracket),
        None => Ok(()),
    }
}

// Reads the lines up to the text's closing bracket, and plants their defects. A loop of its own, as a sheet's lines have
// one: of a closure that plants, the invariant could not say what the lines mean.
fn add_lines(cursor: &mut Cursor, array: &mut PlaneArray) -> Result<(), Fault>
    ensures reading { (N W : ℕ) (ds : List Defect) → Holds N W ds array.old → Leaves (Lines N W cursor.old.text.now ds cursor.old.at) N W array.new (reached cursor.new.at result) }
    ensures later_records_stay { KeepsLater array.old array.new }
    ensures goes_on { GoesOn cursor.old cursor.new }
{
    loop {
        let token = cursor.next_token()?;
        match token.kind {
            Kind::Close => return Ok(()),
            Kind::Open => add_line(cursor, token.from, array)?,
            _ => return Err(not_wanted(token.from)),
        }
    }
}

// Reads what follows the first line, to the end of the text, into an array that is new.
pub(crate) fn add_rest(cursor: &mut Cursor, array: &mut PlaneArray) -> Result<(), Fault>
    ensures reading { (N W : ℕ) → Holds N W [] array.old → RestLeaves (Rest N W cursor.old.text.now cursor.old.at) N W array.new result }
    ensures later_records_stay { KeepsLater array.old array.new }
{
    add_lines(cursor, array)?;
    cursor.want(Kind::LineFeed)?;
    cursor.want(Kind::End)
}
