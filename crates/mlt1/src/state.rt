// Where a run of MLT-1 stands.
ghost use Rattle.std.specs.Prelude.{◌≡◌, ℕ, ◌+◌, ◌<◌, min, ◌∷◌, map, MatchOption};
ghost use Rattle.march.specs.Tests.{meant};
ghost use Rattle.mlt1.specs.Mlt1.{mlt1};
ghost use Rattle.mlt1.specs.Left.{left, Next, passed};

use cam::size::Size;
use march::element::Element;
use march::step::Step;

// The element, the visit in it and the operation in the visit, each counted from 0, that come next; how many
// operations are done (the run's place), and how many of them missed. The three places are kept in the place of an
// iterator, since a run stops between any two operations and is a plain copy apart from its array.
#[derive(Clone, Copy)]
pub struct RunState {
    pub(crate) element: u8,
    pub(crate) visit: u16,
    pub(crate) operation: u8,
    pub(crate) place: u32,
    pub(crate) misses: u32,
}

impl RunState {
    // The step that comes next, if any is left, of a table that has MLT-1. The state moves on past visits whose
    // operations are done and elements whose visits are done; what is left stays the same.
    pub(crate) fn next_step(&mut self, table: &[Element; 7], size: Size) -> Option<Step>
        requires table_of_mlt1 { map meant table.now ≡ mlt1 }
        ensures what_is_left_stays { left size.words (min size.width 64) self.new ≡ left size.words (min size.width 64) self.old }
        ensures first_that_is_left { Next size.words (min size.width 64) self.new result }
        ensures place_stays { self.new.place ≡ self.old.place }
        ensures misses_stay { self.new.misses ≡ self.old.misses }
    {
        while let Some(element) = table.get(usize::from(self.element)) {
            if let Some(step) = element.step(size, self.visit, self.operation) {
                return Some(step);
            }
            if self.visit < element.visits(size) {
                self.visit += 1;
            } else {
                self.element += 1;
                self.visit = 0;
            }
            self.operation = 0;
        }
        None
    }

    // Moves on past a step that was done, and counts it and its miss.
    pub(crate) fn pass(&mut self, missed: bool)
        requires operation_of_a_visit { self.old.operation < 8 }
        ensures next_operation { self.new ≡ passed missed self.old }
    {
        self.operation += 1;
        self.place = self.place.saturating_add(1);
        self.misses = self.misses.saturating_add(missed as u32);
    }
}
