// The listed defects of cells: storage, and answers of the comparison.
ghost use Rattle.std.specs.Prelude.{◌≡◌, Bool};
ghost use Rattle.cam.specs.Model.{agrees};
ghost use Rattle.cam.specs.Defects.{in_set, response, storage_with};

// How a cell stores: good; always 0 or always 1; holding 0 it does not rise, holding 1 it does not fall. Good is a case
// and not the `None` of an `Option` of a defect, which would make each of the many matches on it a step deeper.
#[derive(Clone, Copy, Default, PartialEq, Eq)]
pub enum Storage {
    #[default]
    Good,
    Sa0,
    Sa1,
    NoRise,
    NoFall,
}

// The storage that is not good.
#[derive(Clone, Copy, PartialEq, Eq)]
pub enum StorageDefect {
    Sa0,
    Sa1,
    NoRise,
    NoFall,
}

// The storage of a cell with this defect.
impl From<StorageDefect> for Storage {
    ghost from_gives = { λ defect storage. storage ≡ storage_with defect };

    fn from(defect: StorageDefect) -> Storage {
        match defect {
            StorageDefect::Sa0 => Storage::Sa0,
            StorageDefect::Sa1 => Storage::Sa1,
            StorageDefect::NoRise => Storage::NoRise,
            StorageDefect::NoFall => Storage::NoFall,
        }
    }
}

// What a cell holds, beside the bit that it is compared with. Pairs are written 00, 01, 11, 10, the held bit first.
#[derive(Clone, Copy, PartialEq, Eq)]
pub struct Pair {
    pub held: bool,
    pub comparand: bool,
}

// The pairs for which a cell's answer is reversed. A sound cell has none.
#[derive(Clone, Copy, Default, PartialEq, Eq)]
pub struct WrongSet {
    pub has00: bool,
    pub has01: bool,
    pub has11: bool,
    pub has10: bool,
}

impl WrongSet {
    pub fn contains(self, pair: Pair) -> bool
        ensures membership { result ≡ in_set self pair.held pair.comparand }
    {
        match (pair.held, pair.comparand) {
            (false, false) => self.has00,
            (false, true) => self.has01,
            (true, true) => self.has11,
            (true, false) => self.has10,
        }
    }
}

// The comparison faults that have names: stuck match and stuck mismatch (SMF, SMMF), a match that follows the
// comparand alone (CM1F, CM0F) or the held bit alone (PM1F, PM0F), a mismatch of equal bits (EMM1F, EMM0F), and
// a match of unequal ones (IM1F, IM0F).
#[derive(Clone, Copy, PartialEq, Eq)]
pub enum NamedFault {
    Smf,
    Smmf,
    Cm1f,
    Cm0f,
    Pm1f,
    Pm0f,
    Emm1f,
    Emm0f,
    Im1f,
    Im0f,
}

impl NamedFault {
    // The wrong set with which a cell answers as the fault says.
    pub fn wrong_set(self) -> WrongSet
        ensures answers_as_named { (h b : Bool) → agrees (in_set result) h b ≡ response self h b }
    {
        let (has00, has01, has11, has10) = match self {
            NamedFault::Smf => (false, true, false, true),
            NamedFault::Smmf => (true, false, true, false),
            NamedFault::Cm1f => (true, true, false, false),
            NamedFault::Cm0f => (false, false, true, true),
            NamedFault::Pm1f => (true, false, false, true),
            NamedFault::Pm0f => (false, true, true, false),
            NamedFault::Emm1f => (false, false, true, false),
            NamedFault::Emm0f => (true, false, false, false),
            NamedFault::Im1f => (false, false, false, true),
            NamedFault::Im0f => (false, true, false, false),
        };
        WrongSet {
            has00,
            has01,
            has11,
            has10,
        }
    }
}
