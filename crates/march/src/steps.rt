// Going over the operations of an element, and over the steps of one of its visits.
ghost use Rattle.std.specs.Prelude.{◌≡◌, min};
ghost use Rattle.std.specs.Iterator.{YieldsFirst, item_count};
ghost use Rattle.march.specs.Tests.{meant, steps_in_visit};
ghost use Rattle.march.specs.Building.{operations_of};
ghost use Rattle.march.specs.Going.{operations_left, steps_left};

use crate::element::{Element, TestOperation};
use crate::step::Step;
use cam::size::Size;

// The operations of an element from one of them on.
#[derive(Clone, Copy, Drop)]
pub struct Operations<'a> {
    element: &'a Element,
    at: u8,
}

impl<'a> Iterator for Operations<'a> {
    type Item = TestOperation;

    ghost next_gives = { YieldsFirst operations_left };

    ghost remaining = { item_count operations_left };

    #[tactic(auto, using(crate::proofs::Going::none_left, crate::proofs::Going::one_left, crate::proofs::Going::within_eight, crate::proofs::Table::operations_few))]
    fn next(&mut self) -> Option<TestOperation> {
        let operation = self.element.operation(self.at)?;
        self.at += 1;
        Some(operation)
    }
}

// The steps of a visit from one of them on.
#[derive(Clone, Copy, Drop)]
pub struct Steps<'a> {
    element: &'a Element,
    size: Size,
    visit: u16,
    operation: u8,
}

impl<'a> Iterator for Steps<'a> {
    type Item = Step;

    ghost next_gives = { YieldsFirst steps_left };

    ghost remaining = { item_count steps_left };

    #[tactic(auto, using(crate::proofs::Going::none_left, crate::proofs::Going::one_left, crate::proofs::Going::within_eight, crate::proofs::Table::operations_few))]
    fn next(&mut self) -> Option<Step> {
        let step = self.element.step(self.size, self.visit, self.operation)?;
        self.operation += 1;
        Some(step)
    }
}

impl Element {
    // Its operations, in their order.
    pub fn operations(&self) -> Operations<'_>
        ensures each_operation { operations_left result ≡ operations_of (meant self.now) }
    {
        Operations {
            element: self,
            at: 0,
        }
    }

    // The steps of visit `visit`, counted from 0, in their order; none past the last visit.
    pub fn steps(&self, size: Size, visit: u16) -> Steps<'_>
        ensures each_step_of_the_visit { steps_left result ≡ steps_in_visit size.words (min size.width 64) (meant self.now) visit }
    {
        Steps {
            element: self,
            size,
            visit,
            operation: 0,
        }
    }
}
