// Numbers of an array text: words of 1 to 4 digits.
ghost use Rattle.std.specs.Prelude.{◌≡◌, true, false, MatchOption};
ghost use Rattle.words.specs.Going.{GoesOn};
ghost use Rattle.words.specs.Readings.{Reading, come_to};
ghost use Rattle.array_lines.specs.Numbers.{is_numeral, numeral, NumberNext, NumberWithin};

use cam::fault::{Fault, Reason};
use std::ops::Range;
use words::cursor::Cursor;
use words::form::not_wanted;
use words::meaning::meaning_fault;

const MOST_DIGITS: usize = 4;

// A number, and the place of its first digit.
#[derive(Clone, Copy)]
pub struct Number {
    pub value: u16,
    pub from: usize,
}

// The number that the digits write; none where there are too many, or where a byte is no digit.
fn numeral_value(word: &[u8]) -> Option<u16>
    ensures value_of_digits { MatchOption result (is_numeral word.now ≡ false) (λ n. (is_numeral word.now ≡ true) × (n ≡ numeral word.now)) }
{
    if word.len() > MOST_DIGITS {
        return None;
    }
    // a loop, since of the value that a fold hands on it stayed open that ten times it fits
    let mut value: u16 = 0;
    for byte in word {
        if !byte.is_ascii_digit() {
            return None;
        }
        value = value * 10 + u16::from(*byte - b'0');
    }
    Some(value)
}

// Reads a number.
fn read_number(cursor: &mut Cursor) -> Result<Number, Fault>
    ensures reading { Reading (NumberNext cursor.old.text.now cursor.old.at) (come_to cursor.new.at result) }
    ensures goes_on { GoesOn cursor.old cursor.new }
{
    let word = cursor.any_word()?;
    let from = word.from;
    let value = numeral_value(word.bytes).ok_or(not_wanted(from))?;
    Ok(Number { value, from })
}

// Reads a number, and asks whether it is within these limits; else it is refused for this reason.
pub fn number_within(
    cursor: &mut Cursor,
    limits: Range<u16>,
    reason: Reason,
) -> Result<Number, Fault>
    ensures reading { Reading (NumberWithin limits.start limits.end reason cursor.old.text.now cursor.old.at) (come_to cursor.new.at result) }
    ensures goes_on { GoesOn cursor.old cursor.new }
{
    let number = read_number(cursor)?;
    if !limits.contains(&number.value) {
        return Err(meaning_fault(reason, number.from));
    }
    Ok(number)
}
