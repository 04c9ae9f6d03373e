// A whole run of MLT-1, and what it tells.
ghost use Rattle.std.specs.Prelude.{◌≡◌, ◌+◌, ◌*◌, min, Bool, ◌↔◌};
ghost use Rattle.cam.specs.Model.{tally_cap};
ghost use Rattle.cam.specs.Defects.{Sound};
ghost use Rattle.march.specs.Masking.{NoStandIn};
ghost use Rattle.march.specs.Tests.{schedule, misses, after};
ghost use Rattle.mlt1.specs.Mlt1.{mlt1};
ghost use Rattle.mlt1.specs.Separation.{Separates};

use crate::state::RunState;
use crate::table::operation_count;
use cam::array::CamArray;
use cam::size::size_of;

// Runs MLT-1 from its start to its end, and says how many of its answers were not the expected ones. From whatever the
// array holds, and with any listed defects together, there is none exactly when the array has no listed defect.
pub fn run_mlt1<C: CamArray>(array: &mut C) -> u32
    ensures misses_of_the_schedule { result ≡ misses (C.build array.old) (schedule (C.build array.old).words (C.build array.old).width mlt1) (C.state array.old) }
    ensures none_exactly_when_sound { (result ≡ 0) ↔ Sound (C.build array.old) }
    ensures state_after_the_schedule { C.state array.new ≡ after (C.build array.old) (schedule (C.build array.old).words (C.build array.old).width mlt1) (C.state array.old) }
    ensures build_stays { C.build array.new ≡ C.build array.old }
    ensures operations_tallied { (C.state array.new).tally ≡ min ((C.state array.old).tally + (11 * (C.build array.old).words + 2 * (C.build array.old).width)) tally_cap }
    ensures separates_every_array { Separates }
    ensures no_word_stands_in { NoStandIn Bool }
{
    let mut run = RunState::start();
    let operations = operation_count(size_of(array));
    run.advance_by(array, operations);
    run.misses()
}
