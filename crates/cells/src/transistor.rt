// The transistor cell.
ghost use Rattle.std.specs.Prelude.{◌≡◌, Bool, false, not};
ghost use Rattle.cam.specs.Defects.{in_set, is_pair};
ghost use Rattle.cells.specs.Transistors.{conducts, pulls, mismatches, with_stuck, wrong_by, AllGood, pair_of, transistor_meaning, transistor_steady, EmptyExactlyWhenGood, EachSingleFault};

use crate::kind::CellKind;
use cam::defect::WrongSet;

// What may be wrong with a transistor: open it never conducts, on it always does.
#[derive(Clone, Copy, PartialEq, Eq)]
pub enum TransistorFault {
    Open,
    On,
}

// Which of the four transistors.
#[derive(Clone, Copy, PartialEq, Eq)]
pub enum Position {
    StorageA,
    SearchA,
    StorageB,
    SearchB,
}

// Whether a transistor conducts. A good one, which has no fault, does when its gate is on.
fn conducts(transistor: Option<TransistorFault>, gate: bool) -> bool
    ensures as_its_state_allows { result ≡ conducts transistor gate }
{
    match transistor {
        None => gate,
        Some(TransistorFault::Open) => false,
        Some(TransistorFault::On) => true,
    }
}

// A leg of the search path: two transistors in a row, one at the stored bit and one at the search line. It pulls the
// match line down when both conduct.
#[derive(Clone, Copy, PartialEq, Eq)]
pub struct Leg {
    pub storage: Option<TransistorFault>,
    pub search: Option<TransistorFault>,
}

impl Leg {
    fn pulls(self, stored: bool, sought: bool) -> bool
        ensures both_conduct { result ≡ pulls self stored sought }
    {
        // a leg without a fault, as hardly one has any, goes first: to ask each transistor takes half as long again
        match (self.storage, self.search) {
            (None, None) => stored && sought,
            (storage, search) => conducts(storage, stored) && conducts(search, sought),
        }
    }
}

// A cell of two legs. Leg A's storage transistor conducts at held 1 and its search transistor at comparand 0, leg B's at
// held 0 and at comparand 1. A latch that is not good is stuck at a bit: the cell counts as holding that bit, whatever
// `held` says.
#[derive(Clone, Copy, PartialEq, Eq)]
pub struct TransistorCell {
    pub held: bool,
    pub latch: Option<bool>,
    pub leg_a: Leg,
    pub leg_b: Leg,
}

impl TransistorCell {
    // A cell without a defect.
    pub fn good(held: bool) -> TransistorCell
        ensures holds { (transistor_meaning result).held ≡ held }
        ensures all_transistors_good { AllGood result }
    {
        let leg = Leg {
            storage: None,
            search: None,
        };
        TransistorCell {
            held,
            latch: None,
            leg_a: leg,
            leg_b: leg,
        }
    }

    // The cell with one of its transistors stuck.
    pub fn with_stuck(self, position: Position, fault: TransistorFault) -> TransistorCell
        ensures only_this_one_stuck { result ≡ with_stuck position (Some fault) self }
        ensures each_single_fault { EachSingleFault }
    {
        let stuck = Some(fault);
        let mut cell = self;
        // Each arm writes its own: what is written through a `&mut` that a match picks, the prover does not know.
        match position {
            Position::StorageA => cell.leg_a.storage = stuck,
            Position::SearchA => cell.leg_a.search = stuck,
            Position::StorageB => cell.leg_b.storage = stuck,
            Position::SearchB => cell.leg_b.search = stuck,
        }
        cell
    }

    // Whether the cell, holding `held`, matches the comparand: it mismatches when a leg pulls.
    fn matches(&self, held: bool, comparand: bool) -> bool
        ensures unless_a_leg_pulls { result ≡ not (mismatches self.now held comparand) }
    {
        !(self.leg_a.pulls(held, !comparand) || self.leg_b.pulls(!held, comparand))
    }

    // The pairs that the cell answers wrongly. There is none exactly when all four transistors are good.
    pub fn wrong_set(&self) -> WrongSet
        ensures wrong_pairs { (h b : Bool) → in_set result h b ≡ wrong_by self.now h b }
        ensures empty_exactly_when_good { EmptyExactlyWhenGood }
    {
        WrongSet {
            has00: !self.matches(false, false),
            has01: self.matches(false, true),
            has11: !self.matches(true, true),
            has10: self.matches(true, false),
        }
    }
}

impl CellKind for TransistorCell {
    ghost meaning = { transistor_meaning };

    ghost steady = { transistor_steady };

    fn take(&mut self, bit: bool) {
        self.held = self.latch.unwrap_or(bit);
    }

    fn held(&self) -> bool {
        self.latch.unwrap_or(self.held)
    }

    fn answer(&self, comparand: bool) -> bool {
        self.matches(self.held(), comparand)
    }
}
