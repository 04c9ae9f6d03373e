// An element of a sheet, from after the word of its order on.
ghost use Rattle.std.specs.Prelude.{◌≡◌};
ghost use Rattle.march.specs.Table.{elements_of, name_of};
ghost use Rattle.words.specs.Going.{GoesOn};
ghost use Rattle.words.specs.Readings.{Reading, reached, leaving};
ghost use Rattle.sheets.specs.Elements.{ElementAt};

use cam::fault::{Fault, Reason};
use march::operations::Order;
use march::test::Test;
use sheet_operations::operation::read_operation;
use sheet_operations::question::check_room;
use words::cursor::Cursor;
use words::form::not_wanted;
use words::token::Kind;

const MOST_ELEMENTS: u8 = 16;

// Reads an element, of which the bracket at this place and the word of its order were read, up to its closing bracket.
// It becomes the last element of the test, and each of its operations goes to it through the test.
pub(crate) fn read_element(
    cursor: &mut Cursor,
    order: Order,
    bracket: usize,
    test: &mut Test,
) -> Result<(), Fault>
    ensures reading { Reading (ElementAt order (elements_of test.old) bracket cursor.old.text.now cursor.old.at) (leaving (elements_of test.new) (reached cursor.new.at result)) }
    ensures name_stays { name_of test.new ≡ name_of test.old }
    ensures goes_on { GoesOn cursor.old cursor.new }
{
    // asked here, so that the refusal names the place in the text; the test asks again
    check_room(
        test.element_count(),
        MOST_ELEMENTS,
        Reason::TooManyElements,
        bracket,
    )?;
    test.add_element(order)?;
    // counted here, since it costs less than to ask the test for its last element at each token
    let mut count = 0u8;
    loop {
        let token = cursor.next_token()?;
        match token.kind {
            Kind::Close if count > 0 => return Ok(()),
            Kind::Open => {
                let operation = read_operation(cursor, token.from, order, count)?;
                test.add_operation(operation)?;
                count += 1;
            }
            _ => return Err(not_wanted(token.from)),
        }
    }
}
