// The first line of an array text, `(array N W`.
ghost use Rattle.words.specs.Going.{GoesOn};
ghost use Rattle.words.specs.Readings.{Reading, come_to};
ghost use Rattle.array_text.specs.Grammar.{SizeNext, FirstLineNext};

use array_lines::number::number_within;
use cam::fault::{Fault, Reason};
use cam::size::Size;
use words::cursor::Cursor;
use words::token::{Kind, check_length};

// Reads both numbers, 1 to 256 words and 1 to 64 bits (41), and the line feed.
fn read_size(cursor: &mut Cursor) -> Result<Size, Fault>
    ensures reading { Reading (SizeNext cursor.old.text.now cursor.old.at) (come_to cursor.new.at result) }
    ensures goes_on { GoesOn cursor.old cursor.new }
{
    let words = number_within(cursor, 1..257, Reason::SizeOutsideLimits)?;
    let width = number_within(cursor, 1..65, Reason::SizeOutsideLimits)?;
    cursor.want(Kind::LineFeed)?;
    Ok(Size {
        words: words.value,
        width: width.value as u8,
    })
}

// Asks whether the text is short enough, and reads its first line.
pub(crate) fn read_first_line(cursor: &mut Cursor) -> Result<Size, Fault>
    ensures reading { Reading (FirstLineNext cursor.old.text.now cursor.old.at) (come_to cursor.new.at result) }
    ensures goes_on { GoesOn cursor.old cursor.new }
{
    check_length(cursor.text)?;
    cursor.want(Kind::Open)?;
    cursor.want_word(b"array")?;
    read_size(cursor)
}
