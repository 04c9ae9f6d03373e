// A match register: one word of eight bits with a mark, which may be stuck.
ghost use Rattle.std.specs.Prelude.{◌≡◌};
ghost use Rattle.match_register.specs.Register.{register_build, register_state, made_build};
ghost use Rattle.cam.specs.Defects.{cleared};

use cam::mark::Mark;

// Bits of `held` from 8 up do not count.
#[derive(Drop)]
pub struct MatchRegister {
    pub(crate) held: u64,
    pub(crate) mark: Mark,
    pub(crate) tally: u64,
}

impl MatchRegister {
    pub fn new(stuck: bool) -> MatchRegister
        ensures with_this_mark { register_build result ≡ made_build stuck }
        ensures nothing_done { register_state result ≡ cleared }
    {
        MatchRegister {
            held: 0,
            mark: if stuck { Mark::Stuck } else { Mark::Clear },
            tally: 0,
        }
    }
}
