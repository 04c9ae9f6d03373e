// An operation, from its opening bracket on.
ghost use Rattle.words.specs.Going.{GoesOn};
ghost use Rattle.words.specs.Readings.{Reading, come_to};
ghost use Rattle.sheet_operations.specs.Operations.{Rest, OperationAt};

use crate::letter::{Letter, read_letter};
use crate::question::{check_allowed, check_room};
use cam::fault::{Fault, Reason};
use march::element::{Comparison, TestOperation};
use march::operations::Order;
use words::cursor::Cursor;
use words::token::Kind;

const MOST_OPERATIONS: u8 = 8;

// Reads what follows the letter: a bit, the expected hit of a compare, and the closing bracket.
fn rest(cursor: &mut Cursor, letter: Letter) -> Result<TestOperation, Fault>
    ensures reading { Reading (Rest cursor.old.text.now letter cursor.old.at) (come_to cursor.new.at result) }
    ensures goes_on { GoesOn cursor.old cursor.new }
{
    let operation = match letter {
        Letter::Write => TestOperation::Write(cursor.bit_word()?),
        Letter::Read => TestOperation::Read(cursor.bit_word()?),
        Letter::Compare => TestOperation::Compare(Comparison {
            bit: cursor.bit_word()?,
            hit: cursor.either_word(b"none", b"hit")?,
        }),
        Letter::Erase => TestOperation::Erase,
    };
    cursor.want(Kind::Close)?;
    Ok(operation)
}

// Reads the operation whose bracket was read, at this place, in an element of this order that has `count` operations so
// far.
pub fn read_operation(
    cursor: &mut Cursor,
    bracket: usize,
    order: Order,
    count: u8,
) -> Result<TestOperation, Fault>
    ensures reading { Reading (OperationAt order count cursor.old.text.now bracket cursor.old.at) (come_to cursor.new.at result) }
    ensures goes_on { GoesOn cursor.old cursor.new }
{
    check_room(count, MOST_OPERATIONS, Reason::TooManyOperations, bracket)?;
    let (letter, place) = read_letter(cursor)?;
    check_allowed(order, letter, place)?;
    rest(cursor, letter)
}
