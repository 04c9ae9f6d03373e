// Elements of a test, and the steps of their visits.
ghost use Rattle.std.specs.Prelude.{◌≡◌, min};
ghost use Rattle.march.specs.Tests.{at_word, on_column, visits, step_at, meant};

use crate::few::Few;
use crate::step::{Expectation, Step};
use cam::bits::{all_but_column, equal_bits};
use cam::index::{ColumnIndex, WordIndex};
use cam::operation::Operation;
use cam::size::Size;

// A compare of equal bits, and whether a hit is expected. No `Pair`, whose bits are a cell's and a comparand's.
#[derive(Clone, Copy, Default)]
pub struct Comparison {
    pub bit: bool,
    pub hit: bool,
}

impl Comparison {
    // The step that compares one column of `width`, every other blocked.
    pub fn on_column(self, column: ColumnIndex, width: u8) -> Step
        ensures step_on_column { result ≡ on_column (min width 64) column.number self }
    {
        Step {
            operation: Operation::Compare {
                pattern: equal_bits(width, self.bit),
                mask: all_but_column(width, column),
            },
            expected: Expectation::Hit(self.hit),
        }
    }
}

// An operation of a test: it writes equal bits, reads and expects them, compares them, or erases.
#[derive(Clone, Copy, Default)]
pub enum TestOperation {
    Write(bool),
    Read(bool),
    Compare(Comparison),
    #[default]
    Erase,
}

impl TestOperation {
    // The step that does this at a word of `width` bits, no column blocked.
    pub fn at_word(self, word: WordIndex, width: u8) -> Step
        ensures step_at_word { result ≡ at_word (min width 64) word.number self }
    {
        match self {
            TestOperation::Write(bit) => Step {
                operation: Operation::Write {
                    word,
                    pattern: equal_bits(width, bit),
                    mask: 0,
                },
                expected: Expectation::Nothing,
            },
            TestOperation::Read(bit) => Step {
                operation: Operation::Read { word },
                expected: Expectation::Bits(equal_bits(width, bit)),
            },
            TestOperation::Compare(comparison) => Step {
                operation: Operation::Compare {
                    pattern: equal_bits(width, comparison.bit),
                    mask: 0,
                },
                expected: Expectation::Hit(comparison.hit),
            },
            TestOperation::Erase => Step {
                operation: Operation::Erase { word },
                expected: Expectation::Nothing,
            },
        }
    }
}

// An element visits the words upward or downward and does its operations at each, or the columns upward and does its
// compares on each. A columns element can hold nothing but compares.
#[derive(Clone, Copy)]
pub enum Element {
    Up(Few<TestOperation, 8>),
    Down(Few<TestOperation, 8>),
    Columns(Few<Comparison, 8>),
}

impl Element {
    // How many visits the element makes on an array of this size; a width past 64 counts as 64.
    pub fn visits(&self, size: Size) -> u16
        ensures visit_count { result ≡ visits size.words (min size.width 64) (meant self.now) }
    {
        match self {
            Element::Up(_) | Element::Down(_) => size.words,
            Element::Columns(_) => size.width.min(64) as u16,
        }
    }

    // Step `operation` of visit `visit`, both counted from 0, where there is one.
    pub fn step(&self, size: Size, visit: u16, operation: u8) -> Option<Step>
        ensures step_of_visit { result ≡ step_at size.words (min size.width 64) (meant self.now) visit operation }
    {
        if visit >= self.visits(size) {
            return None;
        }
        let width = size.width;
        let number = match self {
            Element::Down(_) => size.words.saturating_sub(1).saturating_sub(visit),
            Element::Up(_) | Element::Columns(_) => visit,
        };
        match self {
            Element::Up(operations) | Element::Down(operations) => operations
                .get(operation)
                .map(|operation| operation.at_word(WordIndex { number }, width)),
            Element::Columns(comparisons) => {
                let column = ColumnIndex {
                    number: number as u8,
                };
                comparisons
                    .get(operation)
                    .map(|comparison| comparison.on_column(column, width))
            }
        }
    }
}
