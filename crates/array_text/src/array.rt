// A whole array text.
ghost use Rattle.std.specs.Prelude.{◌≡◌, ◌<◌, ◌≤◌, drop, Err, vec_len, MatchResult};
ghost use Rattle.planes.specs.Planes.{build_of, blanked};
ghost use Rattle.words.specs.Readings.{Reading};
ghost use Rattle.array_text.specs.Grammar.{ArrayCall};
ghost use Rattle.array_text.specs.Texts.{Means, HandedBack};

use crate::first_line::read_first_line;
use crate::lines::add_rest;
use cam::fault::{Fault, Reason, Returned};
use cam::size::size_of;
use planes::array::PlaneArray;
use planes::word::WordRecord;
use words::cursor::Cursor;

// The most records that an array needs.
pub const RECORDS: usize = 256;

// Ends an array in the making, and hands its records back with those of its words blank.
fn given_up(array: PlaneArray) -> Vec<WordRecord>
    ensures words_blank_others_stay { 1 ≤ (build_of array).words → result.items ≡ blanked (build_of array).words array.records.items }
{
    let size = size_of(&array);
    PlaneArray::new(array.into_records(), size).map_or_else(
        |returned| returned.back,
        PlaneArray::into_records,
    )
}

// Reads the text of an array into a new array with the defects that its lines describe. It asks first of all for the
// records of the largest array (57), so that no text meets too little memory, and then the questions of the text: the
// fault that comes first in it is answered. Records past the last word are left alone. Of a refused text the records come
// back as they were where its first line is refused, and else with those of its words blank.
pub fn read_array(
    text: &[u8],
    records: Vec<WordRecord>,
) -> Result<PlaneArray, Returned<Vec<WordRecord>>>
    ensures text_read { MatchResult result (Means (vec_len records) text.now) (λ e. Reading (ArrayCall (vec_len records) text.now) (Err e.fault)) }
    ensures records_afterwards { MatchResult result (λ p. drop (build_of p).words p.records.items ≡ drop (build_of p).words records.items) (λ e. 256 ≤ vec_len records → HandedBack text.now records.items e.back.items) }
    ensures untouched_without_memory { MatchResult result (λ _. 256 ≤ vec_len records) (λ e. vec_len records < 256 → e.back ≡ records) }
{
    if records.len() < RECORDS {
        return Err(Returned {
            back: records,
            fault: Fault::of_call(Reason::BufferTooShort),
        });
    }
    let mut cursor = Cursor::new(text);
    let size = match read_first_line(&mut cursor) {
        Ok(size) => size,
        // a closure of `map_err` would take the records along, also where the line was read
        Err(fault) => return Err(Returned {
            back: records,
            fault,
        }),
    };
    let mut array = PlaneArray::new(records, size)?;
    // a match, since both ways out take the array along
    match add_rest(&mut cursor, &mut array) {
        Ok(()) => Ok(array),
        Err(fault) => Err(Returned {
            back: given_up(array),
            fault,
        }),
    }
}
