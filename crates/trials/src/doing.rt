// Doing the steps of a test one after the other, with a log.
ghost use Rattle.std.specs.Prelude.{◌≡◌, ◌+◌, ◌<◌, ◌≤◌, true, length};
ghost use Rattle.cam.specs.Buffers.{over};
ghost use Rattle.cam.specs.Operations.{operated};
ghost use Rattle.march.specs.Tests.{after};
ghost use Rattle.march.specs.Table.{elements_of};
ghost use Rattle.trials.specs.Outcomes.{is_check, outcomes as outcomes_of, check_count};
ghost use Rattle.trials.specs.Trials.{steps_on, trial_of, logged, noted};

use crate::counting::is_check;
use crate::result::TrialResult;
use cam::array::CamArray;
use cam::size::size_of;
use march::step::{Step, perform};
use march::test::Test;

// What a trial has done so far, and how many outcomes are written: the place of the next one in the buffer. It is a number:
// of bytes written through an `IterMut` that is kept from step to step a proof knows nothing.
#[derive(Clone, Copy, Default)]
pub(crate) struct Log {
    pub(crate) so_far: TrialResult,
    pub(crate) outcomes: usize,
}

impl Log {
    // Does a step and writes its outcome, if it has one, behind those before it.
    fn do_step<C: CamArray>(&mut self, array: &mut C, step: Step, buffer: &mut [u8])
        requires room { is_check step.operation ≡ true → self.old.outcomes < length buffer.old }
        requires operations_fit { self.old.so_far.operations < 65536 }
        requires misses_fit { self.old.so_far.misses < 65536 }
        ensures counted_once { self.new ≡ logged (C.build array.old) step (C.state array.old) self.old }
        ensures outcome_noted { buffer.new ≡ noted (C.build array.old) step (C.state array.old) self.old.outcomes buffer.old }
        ensures state_after { C.state array.new ≡ operated (C.build array.old) step.operation (C.state array.old) }
        ensures build_stays { C.build array.new ≡ C.build array.old }
    {
        let missed = perform(array, step);
        if is_check(step.operation) {
            buffer[self.outcomes] = missed as u8;
            self.outcomes += 1;
        }
        self.so_far.operations += 1;
        self.so_far.misses += missed as u32;
    }
}

// Does the whole test, from its first element to its last.
pub(crate) fn do_all<C: CamArray>(test: &Test, array: &mut C, buffer: &mut [u8]) -> Log
    requires room { check_count (steps_on (C.build array.old) (elements_of test.now)) ≤ length buffer.old }
    ensures operations_and_misses { result.so_far ≡ trial_of (C.build array.old) (elements_of test.now) (C.state array.old) }
    ensures outcome_bytes { buffer.new ≡ over buffer.old 0 (outcomes_of (C.build array.old) (steps_on (C.build array.old) (elements_of test.now)) (C.state array.old)) }
    ensures state_after { C.state array.new ≡ after (C.build array.old) (steps_on (C.build array.old) (elements_of test.now)) (C.state array.old) }
    ensures build_stays { C.build array.new ≡ C.build array.old }
{
    let size = size_of(array);
    let mut log = Log::default();
    for element in test.elements() {
        for visit in 0..element.visits(size) {
            for step in element.steps(size, visit) {
                log.do_step(array, step, buffer);
            }
        }
    }
    log
}
