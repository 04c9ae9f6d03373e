// How many outcomes a test has.
ghost use Rattle.std.specs.Prelude.{◌≡◌, ◌≤◌, min};
ghost use Rattle.march.specs.Tests.{meant, schedule};
ghost use Rattle.march.specs.Table.{elements_of};
ghost use Rattle.trials.specs.Outcomes.{is_check, check_count, checks_in, checks_of};

use cam::operation::Operation;
use cam::size::Size;
use march::element::{Element, TestOperation};
use march::test::Test;

// Whether an operation gives an outcome: a read and a compare do.
pub(crate) fn is_check(operation: Operation) -> bool
    ensures read_or_compare { result ≡ is_check operation }
{
    matches!(
        operation,
        Operation::Read { .. } | Operation::Compare { .. }
    )
}

// How many reads and compares a visit of an element does.
fn checks_of(element: &Element) -> u32
    ensures reads_and_compares { result ≡ checks_of (meant element.now) }
    ensures at_most_eight { result ≤ 8 }
{
    let checks = element.operations().filter(|operation| {
        matches!(
            *operation,
            TestOperation::Read(_) | TestOperation::Compare(_)
        )
    });
    checks.count() as u32
}

// How many outcomes the visits of an element have.
fn outcomes_of(element: &Element, size: Size) -> u32
    ensures checks_of_each_visit { result ≡ checks_in size.words (min size.width 64) (meant element.now) }
    ensures at_most_eight_a_visit { result ≤ 524280 }
{
    checks_of(element) * element.visits(size) as u32
}

// How many outcomes a trial of the test has on an array of this size: a read and a compare have one each. A width past
// 64 counts as 64.
pub fn outcome_count(test: &Test, size: Size) -> u32
    ensures reads_and_compares { result ≡ check_count (schedule size.words (min size.width 64) (elements_of test.now)) }
{
    test.elements()
        .iter()
        .map(|element| outcomes_of(element, size))
        .sum()
}
