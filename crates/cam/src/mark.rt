// The mark of a word.
ghost use Rattle.std.specs.Prelude.{◌≡◌, false};
ghost use Rattle.cam.specs.Model.{mark_after_write};
ghost use Rattle.cam.specs.Mark.{is_set, is_stuck};

// A mark is clear or set, or stuck, and then never set.
#[derive(Clone, Copy, Default, PartialEq, Eq)]
pub enum Mark {
    #[default]
    Clear,
    Set,
    Stuck,
}

impl Mark {
    // The mark after a write: set, unless it is stuck.
    pub fn written(self) -> Mark
        ensures set_unless_stuck { is_set result ≡ mark_after_write (is_stuck self) (is_set self) }
        ensures stuck_stays { is_stuck result ≡ is_stuck self }
    {
        match self {
            Mark::Stuck => Mark::Stuck,
            _ => Mark::Set,
        }
    }

    // The mark after an erase.
    pub fn erased(self) -> Mark
        ensures clear { is_set result ≡ false }
        ensures stuck_stays { is_stuck result ≡ is_stuck self }
    {
        match self {
            Mark::Stuck => self,
            _ => Mark::Clear,
        }
    }
}
