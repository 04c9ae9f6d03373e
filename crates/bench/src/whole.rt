// A whole run on a bench, and the judging of an array from start to end.
ghost use Rattle.std.specs.Prelude.{◌≡◌, ◌↔◌, IfOk, OnOk, OnErr};
ghost use Rattle.cam.specs.Defects.{Sound};
ghost use Rattle.cam.specs.Refusals.{Asks};
ghost use Rattle.march.specs.Tests.{schedule, misses, after};
ghost use Rattle.mlt1.specs.Mlt1.{mlt1};
ghost use Rattle.bench.specs.Books.{found, finding_number, ran_whole};
ghost use Rattle.bench.specs.Questions.{start_questions};

use crate::bench::Bench;
use crate::books::Finding;
use cam::array::CamArray;
use cam::fault::{Fault, Returned};
use cam::size::size_of;
use mlt1::table::operation_count;

impl<C: CamArray> Bench<C> {
    // Starts a run (51, 54), does all of it and closes it. What it finds is right, whatever the array held and whatever
    // was done before.
    pub fn run_whole(&mut self) -> Result<Finding, Fault>
        ensures asks_in_order { Asks (start_questions (C.build self.old.array) (C.state self.old.array) self.old.books) result }
        ensures finding_of_the_misses { IfOk result (λ f. f ≡ found (misses (C.build self.old.array) (schedule (C.build self.old.array).words (C.build self.old.array).width mlt1) (C.state self.old.array))) }
        ensures sound_exactly_without_a_defect { IfOk result (λ f. (finding_number f ≡ 1) ↔ Sound (C.build self.old.array)) }
        ensures one_run_more { IfOk result (λ f. self.new.books ≡ ran_whole f self.old.books) }
        ensures state_after_the_schedule { OnOk result (C.state self.new.array ≡ after (C.build self.old.array) (schedule (C.build self.old.array).words (C.build self.old.array).width mlt1) (C.state self.old.array)) }
        ensures build_stays { C.build self.new.array ≡ C.build self.old.array }
        ensures refused_changes_nothing { OnErr result (self.new ≡ self.old) }
    {
        let operations = operation_count(size_of(&self.array));
        let ticket = self.start()?;
        let _ = self.step(&ticket, operations);
        // No `map_err`: of a bench that a closure quits the run of, the proof would know nothing.
        match self.close(ticket) {
            Ok(finding) => Ok(finding),
            Err(Returned { back, fault }) => {
                let _ = self.quit(back);
                Err(fault)
            }
        }
    }
}
