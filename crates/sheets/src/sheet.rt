// A whole sheet.
ghost use Rattle.std.specs.Prelude.{◌≡◌, true, IfOk};
ghost use Rattle.march.specs.Building.{is_whole};
ghost use Rattle.march.specs.Names.{letters_of};
ghost use Rattle.march.specs.Table.{elements_of};
ghost use Rattle.words.specs.Going.{GoesOn};
ghost use Rattle.words.specs.Readings.{Reading, come_to, result_map};
ghost use Rattle.sheets.specs.Sheets.{TitleNext, SheetText, sheet_of};

use crate::line::read_lines;
use cam::fault::Fault;
use march::name::Name;
use march::test::Test;
use words::cursor::Cursor;
use words::token::{Kind, check_length};

// Reads the first line, `(test NAME`. Answers the test's name.
fn read_title(cursor: &mut Cursor) -> Result<Name, Fault>
    ensures reading { Reading (TitleNext cursor.old.text.now cursor.old.at) (come_to cursor.new.at (result_map letters_of result)) }
    ensures goes_on { GoesOn cursor.old cursor.new }
{
    cursor.want(Kind::Open)?;
    cursor.want_word(b"test")?;
    let name = cursor.any_word()?;
    cursor.want(Kind::LineFeed)?;
    Name::new(name.bytes)
}

// Reads a sheet. The answer is the test, by its name and its elements, or the fault that comes first in the text.
pub fn read_sheet(text: &[u8]) -> Result<Test, Fault>
    ensures reading { Reading (SheetText text.now) (sheet_of result) }
    ensures whole_test { IfOk result (λ test. is_whole (elements_of test) ≡ true) }
{
    check_length(text)?;
    let mut cursor = Cursor::new(text);
    let name = read_title(&mut cursor)?;
    let mut test = Test::named(name);
    read_lines(&mut cursor, &mut test)?;
    cursor.want(Kind::LineFeed)?;
    cursor.want(Kind::End)?;
    Ok(test)
}
