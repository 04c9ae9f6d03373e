// Whether a test detects that an array is not as it should be.
ghost use Rattle.std.specs.Prelude.{◌≡◌, nat_lt};
ghost use Rattle.march.specs.Tests.{after, misses};
ghost use Rattle.march.specs.Table.{elements_of};
ghost use Rattle.trials.specs.Trials.{steps_on};
ghost use Rattle.campaigns.specs.Campaigns.{until_miss};

use cam::array::CamArray;
use cam::size::size_of;
use march::step::perform;
use march::test::Test;

// Does the test on the array up to its first miss, and says whether there was one.
pub fn detects<C: CamArray>(test: &Test, array: &mut C) -> bool
    ensures some_step_misses { result ≡ nat_lt 0 (misses (C.build array.old) (steps_on (C.build array.old) (elements_of test.now)) (C.state array.old)) }
    ensures left_at_the_first_miss { C.state array.new ≡ after (C.build array.old) (until_miss (C.build array.old) (steps_on (C.build array.old) (elements_of test.now)) (C.state array.old)) (C.state array.old) }
    ensures build_stays { C.build array.new ≡ C.build array.old }
{
    let size = size_of(array);
    let mut missed = false;
    // loops, left by the label: a chain whose closure operates on the array would tell nothing of the array afterwards
    'elements: for element in test.elements() {
        for visit in 0..element.visits(size) {
            for step in element.steps(size, visit) {
                if perform(array, step) {
                    missed = true;
                    break 'elements;
                }
            }
        }
    }
    missed
}
