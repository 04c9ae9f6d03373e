// Drawing the chart of any array.
ghost use Rattle.std.specs.Prelude.{◌≡◌, ℕ, ◌+◌, ◌*◌, ◌<◌, ◌≤◌, min, Bool, [], ◌∷◌, map, length, nat_lt};
ghost use Rattle.std.specs.List.{range_with_len};
ghost use Rattle.cam.specs.Defects.{blemished};
ghost use Rattle.cam.specs.Model.{tally_cap};
ghost use Rattle.cam.specs.Operations.{after_all};
ghost use Rattle.cam.specs.declared.operation.Operation.TheVariants.{Erase};
ghost use Rattle.cam.specs.Machine.{upward};
ghost use Rattle.march.specs.Tests.{word as word_of};
ghost use Rattle.chart.specs.Bytes.{byte_of, chart_byte};
ghost use Rattle.chart.specs.Chart.{ChartLength, word_operations, chart_operations, Answered, Hits, Charted, blemishes};

use crate::answers::Answers;
use cam::array::CamArray;
use cam::bits::{all_but_column, equal_bits};
use cam::index::{ColumnIndex, WordIndex};
use cam::size::{Size, size_of};

// How many operations a chart takes on an array of this size.
pub fn operation_count(size: Size) -> u32
    ensures eight_and_four_a_column_for_each_word { result ≡ size.words * (8 + 4 * size.width) }
    ensures operations_of_a_chart { result ≡ length (chart_operations size.words size.width) }
    ensures length_at_every_size { ChartLength }
{
    size.words as u32 * (8 + 4 * size.width as u32)
}

// The columns on which a compare of equal bits hits, every other column blocked.
fn hits_by_column<C: CamArray>(array: &mut C, value: bool) -> u64
    ensures hits_of_the_columns { Hits (C.build array.old) value (C.state array.old) result (C.build array.new) (C.state array.new) }
{
    let width = array.width();
    let pattern = equal_bits(width, value);
    let mut hits = 0u64;
    // a loop and no chain, since each compare changes the array
    for number in 0..width {
        if array.compare(pattern, all_but_column(width, ColumnIndex { number })) {
            hits |= 1u64 << number;
        }
    }
    hits
}

// Does what a chart does at a word, and gives the word's answers.
fn visit_word<C: CamArray>(array: &mut C, word: WordIndex) -> Answers
    ensures answers_of_the_word { Answered (C.build array.old) word.number (C.state array.old) result }
    ensures state_after { C.state array.new ≡ after_all (C.build array.old) (word_operations (C.build array.old).width word.number) (C.state array.old) }
    ensures build_stays { C.build array.new ≡ C.build array.old }
{
    let width = array.width();
    array.write(word, equal_bits(width, true), 0);
    array.write(word, 0, 0);
    let zeros = array.read(word);
    let seen = array.compare(0, equal_bits(width, true));
    let zero0 = hits_by_column(array, false);
    let zero1 = hits_by_column(array, true);
    array.write(word, equal_bits(width, true), 0);
    let ones = array.read(word);
    let one1 = hits_by_column(array, true);
    let one0 = hits_by_column(array, false);
    array.erase(word);
    Answers {
        zeros,
        seen,
        zero0,
        zero1,
        ones,
        one1,
        one0,
    }
}

// Clears every mark.
fn erase_all<C: CamArray>(array: &mut C)
    ensures state_after { C.state array.new ≡ after_all (C.build array.old) (upward (C.build array.old).words (λ a. Erase (word_of a) ∷ [])) (C.state array.old) }
    ensures build_stays { C.build array.new ≡ C.build array.old }
{
    for number in 0..array.words() {
        array.erase(WordIndex { number });
    }
}

// Writes the bytes of a word over its row of a buffer, of which the end may be missing.
fn write_row(row: &mut [u8], answers: &Answers)
    requires short_row { length row.old ≤ 64 }
    ensures bytes_of_the_word { row.new ≡ map (byte_of answers.now) (range_with_len 0 (length row.old)) }
{
    for (number, byte) in row.iter_mut().enumerate() {
        let column = ColumnIndex {
            number: number as u8,
        };
        *byte = answers.byte(column);
    }
}

// Draws the chart of an array at the front of a buffer, as far as it fits, and says how many cells are blemished. The
// bytes follow from the defects alone, whatever the array held before.
pub fn draw<C: CamArray>(array: &mut C, buffer: &mut [u8]) -> u32
    ensures byte_of_each_cell { Charted (C.build array.old) buffer.old buffer.new }
    ensures above_0_exactly_where_blemished { (a j : ℕ) → nat_lt 0 (chart_byte (C.build array.old) a j) ≡ blemished (C.build array.old) a j }
    ensures blemished_cells { result ≡ blemishes (C.build array.old) }
    ensures operations_tallied { (C.state array.new).tally ≡ min ((C.state array.old).tally + (C.build array.old).words * (8 + 4 * (C.build array.old).width)) tally_cap }
    ensures state_after { C.state array.new ≡ after_all (C.build array.old) (chart_operations (C.build array.old).words (C.build array.old).width) (C.state array.old) }
    ensures build_stays { C.build array.new ≡ C.build array.old }
{
    erase_all(array);
    let size = size_of(array);
    let width = size.width as usize;
    let mut marred = 0u32;
    for number in 0..size.words {
        let answers = visit_word(array, WordIndex { number });
        // by places and no `chunks_mut`, since a word past the buffer's end is visited all the same
        let start = (number as usize * width).min(buffer.len());
        let end = (start + width).min(buffer.len());
        write_row(&mut buffer[start..end], &answers);
        marred += answers.blemished(size.width);
    }
    marred
}
