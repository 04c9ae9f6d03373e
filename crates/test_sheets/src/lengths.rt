// How long sheets are.
ghost use Rattle.std.specs.Prelude.{◌≡◌, ◌≤◌, length};
ghost use Rattle.sheet_writer.specs.Sheets.{sheet_text};
ghost use Rattle.test_sheets.specs.Parts.{operations_text, line_text, lines_text};

use march::element::Element;
use march::test::Test;
use sheet_writer::pieces::{ENDING, heading, operation_piece};

// How many bytes the operations of an element have.
fn operations_length(element: &Element) -> usize
    ensures length_of_operations { result ≡ length (operations_text element.now) }
    ensures short_operations { result ≤ 88 }
{
    let operations = element.operations();
    operations
        .map(|operation| operation_piece(operation).len())
        .sum()
}

// How many bytes the line of an element has.
fn line_length(element: &Element) -> usize
    ensures length_of_line { result ≡ length (line_text element.now) }
    ensures short_line { result ≤ 98 }
{
    heading(element.order()).len() + operations_length(element) + ENDING.len()
}

// How many bytes the lines of elements have.
fn lines_length(elements: &[Element]) -> usize
    requires few_elements { length elements.now ≤ 16 }
    ensures length_of_lines { result ≡ length (lines_text elements.now) }
    ensures short_lines { result ≤ 1568 }
{
    elements.iter().map(line_length).sum()
}

// How many bytes the sheet of a test has.
pub(crate) fn sheet_length(test: &Test) -> usize
    ensures length_of_sheet { result ≡ length (sheet_text test.now) }
{
    7 + test.name().as_bytes().len() + lines_length(test.elements()) + ENDING.len()
}
