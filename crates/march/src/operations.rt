// The operations of an element, and how an element comes to have them.
ghost use Rattle.std.specs.Prelude.{◌≡◌, length, MatchResult};
ghost use Rattle.std.specs.List.{slice_get};
ghost use Rattle.cam.specs.Refusals.{Asks};
ghost use Rattle.march.specs.declared.operations.Order.TheVariants.{Up};
ghost use Rattle.march.specs.Tests.{meant};
ghost use Rattle.march.specs.Building.{opened, order_of, operations_of, longer, allows, element_questions};

use crate::element::{Element, TestOperation};
use crate::few::Few;
use cam::fault::{Fault, Reason};

// What an element visits: the words upward or downward, or the columns upward.
#[derive(Clone, Copy, PartialEq, Eq)]
pub enum Order {
    Up,
    Down,
    Columns,
}

impl Order {
    // Whether an element of this order may have this operation: in columns, only compares.
    pub fn allows(self, operation: TestOperation) -> bool
        ensures allowed_in_order { result ≡ allows (opened self) operation }
    {
        self != Order::Columns || matches!(operation, TestOperation::Compare(_))
    }
}

// An upward element that has no operation yet.
impl Default for Element {
    ghost is_default = { λ element. meant element ≡ opened Up };

    fn default() -> Element {
        Element::opened(Order::Up)
    }
}

impl Element {
    // An element that has no operation yet.
    pub fn opened(order: Order) -> Element
        ensures no_operation { meant result ≡ opened order }
    {
        match order {
            Order::Up => Element::Up(Few::default()),
            Order::Down => Element::Down(Few::default()),
            Order::Columns => Element::Columns(Few::default()),
        }
    }

    pub fn order(&self) -> Order
        ensures what_it_visits { result ≡ order_of (meant self.now) }
    {
        match self {
            Element::Up(_) => Order::Up,
            Element::Down(_) => Order::Down,
            Element::Columns(_) => Order::Columns,
        }
    }

    pub fn operation_count(&self) -> u8
        ensures how_many_operations { result ≡ length (operations_of (meant self.now)) }
    {
        match self {
            Element::Up(operations) | Element::Down(operations) => operations.len(),
            Element::Columns(comparisons) => comparisons.len(),
        }
    }

    // The operation at a place, counted from 0.
    pub fn operation(&self, at: u8) -> Option<TestOperation>
        ensures operation_at_place { result ≡ slice_get (operations_of (meant self.now)) at }
    {
        match self {
            Element::Up(operations) | Element::Down(operations) => operations.get(at),
            Element::Columns(comparisons) => comparisons.get(at).map(TestOperation::Compare),
        }
    }

    // Adds an operation at the end. An element has at most eight (32), and a columns element only compares (33).
    pub fn add(&mut self, operation: TestOperation) -> Result<(), Fault>
        ensures asks_in_order { Asks (element_questions (meant self.old) operation) result }
        ensures one_more_at_the_end { MatchResult result (λ _. meant self.new ≡ longer (meant self.old) operation) (λ _. self.new ≡ self.old) }
    {
        if self.operation_count() >= 8 {
            return Err(Fault::of_call(Reason::TooManyOperations));
        }
        match self {
            // two arms, since the proof of one for both leaves open which of the two has the longer list
            Element::Up(operations) => operations.push(operation),
            Element::Down(operations) => operations.push(operation),
            // refused here and not by `Order::allows`, after which this match would have an arm that nothing reaches
            Element::Columns(comparisons) => match operation {
                TestOperation::Compare(comparison) => comparisons.push(comparison),
                _ => return Err(Fault::of_call(Reason::OnlyComparesInColumns)),
            },
        }
        Ok(())
    }
}
