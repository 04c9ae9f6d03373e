// Layer 3 of a sheet: what the meaning asks.
ghost use Rattle.words.specs.Readings.{Reading};
ghost use Rattle.sheet_operations.specs.Questions.{Room, Allowed, meaning_fault};

use crate::letter::Letter;
use cam::fault::{Fault, Reason};
use march::operations::Order;
use words::meaning::meaning_fault;

// Asks whether there is room for one more, where there are `count` and may be `most`.
pub fn check_room(count: u8, most: u8, reason: Reason, place: usize) -> Result<(), Fault>
    ensures reading { Reading (Room count most (meaning_fault reason place)) result }
{
    if count >= most {
        return Err(meaning_fault(reason, place));
    }
    Ok(())
}

// Asks whether an element may have an operation of this letter, which stands at this place: in columns, only compares.
// It asks of a letter what `Order::allows` asks of an operation, since it refuses before the operation is read.
pub fn check_allowed(order: Order, letter: Letter, place: usize) -> Result<(), Fault>
    ensures reading { Reading (Allowed order letter place) result }
{
    if order == Order::Columns && letter != Letter::Compare {
        return Err(meaning_fault(Reason::OnlyComparesInColumns, place));
    }
    Ok(())
}
