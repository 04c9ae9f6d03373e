// What a cell of a memory does.
ghost use Rattle.std.specs.Prelude.{◌≡◌};
ghost use Rattle.cells.specs.Meaning.{CellMeaning, SteadyCell, taken, answers_to};

// A kind of cell. Whoever implements it says by a ghost member what a cell means, and proves each contract against that
// meaning; fields of such cells are then arrays under test.
pub trait CellKind {
    // the held bit, how the cell stores, and its wrong set
    ghost meaning: { Self → CellMeaning };

    // whatever is stored: an sa0 cell holds 0, an sa1 cell holds 1
    ghost steady: { (x : Self) → SteadyCell (meaning x) };

    // Writes a bit, as the storage allows.
    fn take(&mut self, bit: bool)
        ensures bit_taken { meaning self.new ≡ taken bit (meaning self.old) };

    // The held bit.
    fn held(&self) -> bool
        ensures held_bit { result ≡ (meaning self.now).held };

    // Whether the cell answers the comparand bit as a match.
    fn answer(&self, comparand: bool) -> bool
        ensures answer_of_cell { result ≡ answers_to (meaning self.now) comparand };
}
