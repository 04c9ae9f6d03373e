// A test as a value: its name and a table of its elements, which is filled through the test.
ghost use Rattle.std.specs.Prelude.{◌≡◌, [], ◌∷◌, ◌++◌, map, length, IfOk, MatchResult, nat_le, nat_lt};
ghost use Rattle.std.specs.Option.{option_map};
ghost use Rattle.std.specs.List.{slice_get};
ghost use Rattle.cam.specs.Refusals.{Asks, ask};
ghost use Rattle.march.specs.Tests.{meant};
ghost use Rattle.march.specs.Names.{letters_of};
ghost use Rattle.march.specs.Building.{opened, last_longer, operation_questions, is_whole};
ghost use Rattle.march.specs.Table.{elements_of, name_of};

use crate::element::{Element, TestOperation};
use crate::few::Few;
use crate::name::Name;
use crate::operations::Order;
use cam::fault::{Fault, Reason};

// A test that may still be growing.
#[derive(Clone, Copy)]
pub struct Test {
    name: Name,
    elements: Few<Element, 16>,
}

impl Test {
    // A test of this name, with no element yet.
    pub fn named(name: Name) -> Test
        ensures no_element { elements_of result ≡ [] }
        ensures its_name { name_of result ≡ letters_of name }
    {
        Test {
            name,
            elements: Few::default(),
        }
    }

    // A test of this name with these elements, of which it has at most sixteen (31).
    pub fn with_elements(name: Name, elements: &[Element]) -> Result<Test, Fault>
        ensures asks_room { Asks (ask (nat_le (length elements.now) 16) 31 ∷ []) result }
        ensures these_elements { IfOk result (λ test. elements_of test ≡ map meant elements.now) }
        ensures its_name { IfOk result (λ test. name_of test ≡ letters_of name) }
    {
        if elements.len() > 16 {
            return Err(Fault::of_call(Reason::TooManyElements));
        }
        Ok(Test {
            name,
            elements: Few::of(elements),
        })
    }

    pub fn name(&self) -> Name
        ensures its_name { letters_of result ≡ name_of self.now }
    {
        self.name
    }

    // The elements, in their order.
    pub fn elements(&self) -> &[Element]
        ensures all_elements { map meant result.now ≡ elements_of self.now }
    {
        self.elements.as_slice()
    }

    pub fn element_count(&self) -> u8
        ensures how_many_elements { result ≡ length (elements_of self.now) }
    {
        self.elements.len()
    }

    // An element by its number, counted from 0.
    pub fn element(&self, at: u8) -> Option<Element>
        ensures element_at_place { option_map meant result ≡ slice_get (elements_of self.now) at }
    {
        self.elements.get(at)
    }

    // Opens a new element at the end, with no operation yet. A test has at most sixteen (31).
    pub fn add_element(&mut self, order: Order) -> Result<(), Fault>
        ensures asks_room { Asks (ask (nat_lt (length (elements_of self.old)) 16) 31 ∷ []) result }
        ensures one_more_at_the_end { MatchResult result (λ _. elements_of self.new ≡ elements_of self.old ++ (opened order ∷ [])) (λ _. self.new ≡ self.old) }
        ensures name_stays { name_of self.new ≡ name_of self.old }
    {
        if self.element_count() >= 16 {
            return Err(Fault::of_call(Reason::TooManyElements));
        }
        self.elements.push(Element::opened(order));
        Ok(())
    }

    // Adds an operation at the end of the last element. There must be one (62), with fewer than eight operations (32),
    // and a columns element takes only compares (33).
    pub fn add_operation(&mut self, operation: TestOperation) -> Result<(), Fault>
        ensures asks_in_order { Asks (operation_questions (elements_of self.old) operation) result }
        ensures last_element_longer { MatchResult result (λ _. elements_of self.new ≡ last_longer (elements_of self.old) operation) (λ _. self.new ≡ self.old) }
        ensures name_stays { name_of self.new ≡ name_of self.old }
    {
        let count = self.element_count();
        if count == 0 {
            return Err(Fault::of_call(Reason::NothingInside));
        }
        // by its place, since for a loan of the last element the proof leaves open what the table holds after it
        self.elements.items[count as usize - 1].add(operation)
    }

    // Whether the test is whole: 1 to 16 elements of 1 to 8 operations each.
    pub fn is_whole(&self) -> bool
        ensures decides_whole { result ≡ is_whole (elements_of self.now) }
    {
        let elements = self.elements();
        !elements.is_empty() && elements.iter().all(|element| element.operation_count() > 0)
    }
}
