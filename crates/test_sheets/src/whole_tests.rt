// Whole tests as sheets.
ghost use Rattle.std.specs.Prelude.{◌≡◌, ◌+◌, ◌<◌, ◌≤◌, true, map, length, take, IfOk, MatchResult};
ghost use Rattle.cam.specs.Buffers.{over};
ghost use Rattle.cam.specs.Refusals.{Asks};
ghost use Rattle.march.specs.Building.{order_of, operations_of, is_filled};
ghost use Rattle.march.specs.Every.{every};
ghost use Rattle.march.specs.Table.{elements_of, name_of};
ghost use Rattle.march.specs.Tests.{meant};
ghost use Rattle.sheet_writer.specs.Sheets.{sheet_text};
ghost use Rattle.sheet_writer.specs.Writing.{between, inside};
ghost use Rattle.test_sheets.specs.Questions.{test_questions};
ghost use Rattle.test_sheets.specs.Parts.{operations_text, line_text, lines_text};
ghost use Rattle.test_sheets.specs.Pieces.{PiecesReadBack};
ghost use Rattle.test_sheets.specs.RoundTrip.{Says, ReadsBack};

use crate::lengths::sheet_length;
use cam::fault::{Fault, Reason};
use march::element::Element;
use march::test::Test;
use sheet_writer::states::{BetweenElements, InsideElement};

// Writes the operations of an element that was just opened.
fn write_operations(state: InsideElement, element: &Element, buffer: &mut [u8]) -> InsideElement
    requires same_order { state.order ≡ order_of (meant element.now) }
    requires just_opened { state.operations ≡ 0 }
    requires room { state.at + length (operations_text element.now) ≤ length buffer.old }
    ensures operations_written { buffer.new ≡ over buffer.old state.at (operations_text element.now) }
    ensures state_after { result ≡ inside (state.at + length (operations_text element.now)) state.order state.elements (length (operations_of (meant element.now))) }
{
    let mut state = state;
    for operation in element.operations() {
        state = state.write(operation, buffer).unwrap();
    }
    state
}

// Writes the line of an element that has an operation.
fn write_element(state: BetweenElements, element: &Element, buffer: &mut [u8]) -> BetweenElements
    requires few_elements { state.elements < 16 }
    requires some_operation { 1 ≤ length (operations_of (meant element.now)) }
    requires room { state.at + length (line_text element.now) ≤ length buffer.old }
    ensures line_written { buffer.new ≡ over buffer.old state.at (line_text element.now) }
    ensures state_after { result ≡ between (state.at + length (line_text element.now)) (state.elements + 1) }
{
    let opened = state.open(element.order(), buffer).unwrap();
    let filled = write_operations(opened, element, buffer);
    filled.close(buffer).unwrap()
}

// Writes the lines of elements that each have an operation.
fn write_elements(
    state: BetweenElements,
    elements: &[Element],
    buffer: &mut [u8],
) -> BetweenElements
    requires few_elements { state.elements + length elements.now ≤ 16 }
    requires each_filled { every is_filled (map meant elements.now) ≡ true }
    requires room { state.at + length (lines_text elements.now) ≤ length buffer.old }
    ensures lines_written { buffer.new ≡ over buffer.old state.at (lines_text elements.now) }
    ensures state_after { result ≡ between (state.at + length (lines_text elements.now)) (state.elements + length elements.now) }
{
    let mut state = state;
    for element in elements {
        state = write_element(state, element, buffer);
    }
    state
}

// Writes the sheet of a whole test at the front of the buffer, and answers its length. The test must be whole (62), and
// the sheet must fit (61).
pub fn write_test(test: &Test, buffer: &mut [u8]) -> Result<usize, Fault>
    ensures asks_in_order { Asks (test_questions (name_of test.now) (elements_of test.now) buffer.old) result }
    ensures sheet_written { MatchResult result (λ n. (n ≡ length (sheet_text test.now)) × (buffer.new ≡ over buffer.old 0 (sheet_text test.now))) (λ _. buffer.new ≡ buffer.old) }
    ensures reads_back { IfOk result (λ n. Says (take n buffer.new) (name_of test.now) (elements_of test.now)) }
    ensures every_sheet_reads_back { ReadsBack }
    ensures every_list_of_pieces_reads_back { PiecesReadBack }
{
    if !test.is_whole() {
        return Err(Fault::of_call(Reason::NothingInside));
    }
    if buffer.len() < sheet_length(test) {
        return Err(Fault::of_call(Reason::PieceDoesNotFit));
    }
    let name = test.name();
    let begun = BetweenElements::begin(name.as_bytes(), buffer)?;
    let filled = write_elements(begun, test.elements(), buffer);
    Ok(filled.end(buffer).unwrap())
}
