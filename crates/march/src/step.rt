// A step of a test: an operation, and apart from it what is expected of its answer.
ghost use Rattle.std.specs.Prelude.{◌≡◌, not};
ghost use Rattle.cam.specs.Operations.{operated};
ghost use Rattle.march.specs.Steps.{meets, missing};

use cam::array::CamArray;
use cam::operation::{Answer, Operation, operate};

// What is expected of an answer: nothing, these held bits, or this hit. It has the shape of an answer and is a type of
// its own all the same, by a rule of the project: what is expected of an array is never taken for what it answered.
#[derive(Clone, Copy)]
pub enum Expectation {
    Nothing,
    Bits(u64),
    Hit(bool),
}

impl Expectation {
    pub fn is_met_by(self, answer: Answer) -> bool
        ensures met { result ≡ meets self answer }
    {
        match (self, answer) {
            (Expectation::Nothing, _) => true,
            (Expectation::Bits(expected), Answer::Bits(held)) => held == expected,
            (Expectation::Hit(expected), Answer::Hit(hit)) => hit == expected,
            _ => false,
        }
    }
}

#[derive(Clone, Copy)]
pub struct Step {
    pub operation: Operation,
    pub expected: Expectation,
}

// Does a step, and says whether it missed: whether the answer was not the expected one.
pub fn perform<C: CamArray>(array: &mut C, step: Step) -> bool
    ensures missed { result ≡ missing (C.build array.old) step (C.state array.old) }
    ensures state_after { C.state array.new ≡ operated (C.build array.old) step.operation (C.state array.old) }
    ensures build_stays { C.build array.new ≡ C.build array.old }
{
    !step.expected.is_met_by(operate(array, step.operation))
}
