// A trial: a test done on an array, outside any bench.
ghost use Rattle.std.specs.Prelude.{◌≡◌, length, IfOk, MatchResult};
ghost use Rattle.cam.specs.Buffers.{over};
ghost use Rattle.cam.specs.Refusals.{Asks};
ghost use Rattle.march.specs.Tests.{after};
ghost use Rattle.march.specs.Table.{elements_of};
ghost use Rattle.mlt1.specs.Mlt1.{mlt1};
ghost use Rattle.trials.specs.Outcomes.{outcomes as outcomes_of, OutcomeLaws};
ghost use Rattle.trials.specs.Trials.{steps_on, trial_questions, trial_of, TellsAsARun};

use crate::counting::outcome_count;
use crate::doing::do_all;
use crate::result::TrialResult;
use cam::array::CamArray;
use cam::fault::{Fault, Reason};
use cam::size::size_of;
use march::test::Test;

// Does the test on the array, from its first element to its last, and writes a byte for each read or compare into the
// buffer, in their order: 1 for a miss and 0 otherwise. Bytes past the last outcome are left as they are. It asks for a
// byte for every outcome (71); a trial that is refused does nothing. The tally stops at its cap, so no trial is refused
// for it.
#[tactic(auto, using(crate::proofs::Outcomes::outcome_laws))]
pub fn trial<C: CamArray>(
    test: &Test,
    array: &mut C,
    buffer: &mut [u8],
) -> Result<TrialResult, Fault>
    ensures asks_room { Asks (trial_questions (C.build array.old) (elements_of test.now) (length buffer.old)) result }
    ensures operations_and_misses { MatchResult result (λ t. t ≡ trial_of (C.build array.old) (elements_of test.now) (C.state array.old)) (λ _. array.new ≡ array.old) }
    ensures outcome_bytes { MatchResult result (λ _. buffer.new ≡ over buffer.old 0 (outcomes_of (C.build array.old) (steps_on (C.build array.old) (elements_of test.now)) (C.state array.old))) (λ _. buffer.new ≡ buffer.old) }
    ensures state_after { MatchResult result (λ _. C.state array.new ≡ after (C.build array.old) (steps_on (C.build array.old) (elements_of test.now)) (C.state array.old)) (λ _. array.new ≡ array.old) }
    ensures build_stays { C.build array.new ≡ C.build array.old }
    ensures mlt1_tells_as_a_run { elements_of test.now ≡ mlt1 → IfOk result (λ t. TellsAsARun (C.build array.old) (C.state array.old) t) }
    ensures laws_of_outcomes { OutcomeLaws }
{
    let outcomes = outcome_count(test, size_of(array));
    if buffer.len() < outcomes as usize {
        return Err(Fault::of_call(Reason::OutcomesDoNotFit));
    }
    Ok(do_all(test, array, buffer).so_far)
}
