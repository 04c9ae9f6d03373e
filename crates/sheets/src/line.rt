// The lines of a sheet: elements and remarks, each with its line feed.
ghost use Rattle.std.specs.Prelude.{◌≡◌};
ghost use Rattle.march.specs.Table.{elements_of, name_of};
ghost use Rattle.words.specs.Going.{GoesOn};
ghost use Rattle.words.specs.Readings.{Reading, reached, leaving};
ghost use Rattle.sheets.specs.Lines.{line_spelling, LineAt, Lines};

use crate::element::read_element;
use cam::fault::Fault;
use march::operations::Order;
use march::test::Test;
use words::cursor::Cursor;
use words::form::{Spelled, not_wanted};
use words::token::Kind;

// The word that a line begins with. No `Option` of an order, since each case is a word that is read.
#[derive(Clone, Copy)]
pub enum LineWord {
    Note,
    Element(Order),
}

impl Spelled for LineWord {
    ghost use Rattle.sheets.specs.Lines.{line_words_differ};

    ghost spelling = { line_spelling };

    ghost differ = { line_words_differ };

    fn spelled(word: &[u8]) -> Option<LineWord> {
        match word {
            b"note" => Some(LineWord::Note),
            b"up" => Some(LineWord::Element(Order::Up)),
            b"down" => Some(LineWord::Element(Order::Down)),
            b"columns" => Some(LineWord::Element(Order::Columns)),
            _ => None,
        }
    }
}

// Reads the line whose bracket was read, at this place, up to its line feed. An element goes into the test.
fn read_line(cursor: &mut Cursor, bracket: usize, test: &mut Test) -> Result<(), Fault>
    ensures reading { Reading (LineAt cursor.old.text.now (elements_of test.old) bracket cursor.old.at) (leaving (elements_of test.new) (reached cursor.new.at result)) }
    ensures name_stays { name_of test.new ≡ name_of test.old }
    ensures goes_on { GoesOn cursor.old cursor.new }
{
    match cursor.one_of()? {
        LineWord::Note => cursor.outermost_remark()?,
        LineWord::Element(order) => read_element(cursor, order, bracket, test)?,
    }
    cursor.want(Kind::LineFeed)
}

// Reads the lines of a sheet into the test, up to the sheet's closing bracket. A loop of its own, like an element's: a
// shared one would take what a line adds as a closure, and what the lines mean could no longer stand in its invariant.
pub(crate) fn read_lines(cursor: &mut Cursor, test: &mut Test) -> Result<(), Fault>
    ensures reading { Reading (Lines cursor.old.text.now (elements_of test.old) cursor.old.at) (leaving (elements_of test.new) (reached cursor.new.at result)) }
    ensures name_stays { name_of test.new ≡ name_of test.old }
    ensures goes_on { GoesOn cursor.old cursor.new }
{
    loop {
        let token = cursor.next_token()?;
        match token.kind {
            Kind::Close if test.element_count() > 0 => return Ok(()),
            Kind::Open => read_line(cursor, token.from, test)?,
            _ => return Err(not_wanted(token.from)),
        }
    }
}
