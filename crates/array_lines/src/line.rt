// A whole line: a cell, a mark or a remark, with its line feed.
ghost use Rattle.words.specs.Going.{GoesOn};
ghost use Rattle.words.specs.Readings.{Reading, come_to};
ghost use Rattle.array_lines.specs.LineWords.{line_spelling, line_words_differ};
ghost use Rattle.array_lines.specs.Lines.{BodyNext, LineNext};

use crate::cell::{Defect, read_cell, read_mark};
use cam::fault::Fault;
use cam::size::Size;
use words::cursor::Cursor;
use words::form::Spelled;
use words::token::Kind;

// The word that a line begins with.
#[derive(Clone, Copy)]
pub enum LineWord {
    Note,
    Cell,
    Mark,
}

impl Spelled for LineWord {
    ghost spelling = { line_spelling };

    fn spelled(word: &[u8]) -> Option<LineWord> {
        match word {
            b"note" => Some(LineWord::Note),
            b"cell" => Some(LineWord::Cell),
            b"mark" => Some(LineWord::Mark),
            _ => None,
        }
    }

    ghost differ = { line_words_differ };
}

// Reads a line up to its closing bracket: its defect, and none of a remark.
fn read_line_body(cursor: &mut Cursor, size: Size) -> Result<Option<Defect>, Fault>
    ensures reading { Reading (BodyNext size.words size.width cursor.old.text.now cursor.old.at) (come_to cursor.new.at result) }
    ensures goes_on { GoesOn cursor.old cursor.new }
{
    let defect = match cursor.one_of::<LineWord>()? {
        LineWord::Note => {
            cursor.outermost_remark()?;
            return Ok(None);
        }
        LineWord::Cell => read_cell(cursor, size)?,
        LineWord::Mark => read_mark(cursor, size.words)?,
    };
    cursor.want(Kind::Close)?;
    Ok(Some(defect))
}

// Reads a line of the text of an array of this size from after its opening bracket, with its line feed.
pub fn read_line(cursor: &mut Cursor, size: Size) -> Result<Option<Defect>, Fault>
    ensures reading { Reading (LineNext size.words size.width cursor.old.text.now cursor.old.at) (come_to cursor.new.at result) }
    ensures goes_on { GoesOn cursor.old cursor.new }
{
    let defect = read_line_body(cursor, size)?;
    cursor.want(Kind::LineFeed)?;
    Ok(defect)
}
