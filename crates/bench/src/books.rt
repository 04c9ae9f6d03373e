// What a bench keeps beside its array.
ghost use Rattle.std.specs.Prelude.{[], ◌∷◌};
ghost use Rattle.cam.specs.Refusals.{Asks, ask};
ghost use Rattle.bench.specs.Questions.{idle};

use cam::fault::{Fault, Reason};
use mlt1::state::RunState;

// What is known of the array: nothing yet; what the last run that was closed found, with the number of its misses; or how
// many blemished cells the last chart shows. Nothing yet is a case and no `None`, since each finding has a number.
#[derive(Clone, Copy, Debug, Default, PartialEq, Eq)]
pub enum Finding {
    #[default]
    Open,
    Sound,
    Faulty(u32),
    Charted(u32),
}

// The counts of a bench (operations by hand, starts, runs closed, charts, and the operations of runs that were quit),
// the run in hand, if any, and the finding.
#[derive(Clone, Copy, Default)]
pub struct Books {
    pub hand: u64,
    pub starts: u64,
    pub closes: u64,
    pub charts: u64,
    pub quits: u64,
    pub run: Option<RunState>,
    pub finding: Finding,
}

impl Books {
    // Asks whether no run is in hand (51): all that may not be done during a run asks this first.
    pub(crate) fn must_be_idle(&self) -> Result<(), Fault>
        ensures asks_for_no_run { Asks (ask (idle self.now) 51 ∷ []) result }
    {
        match self.run {
            Some(_) => Err(Fault::of_call(Reason::RunInHand)),
            None => Ok(()),
        }
    }
}

// The ticket of a run. No caller can let it go: whoever has one hands it back by closing or quitting the run.
pub struct Ticket {
    pub(crate) number: u64,
}
