// Planting defects. Each call asks first whether the place is inside the array (42), then whether the defect is new
// (43); a refused call leaves the array as it is. Records past the last word are left alone.
ghost use Rattle.std.specs.Prelude.{◌≡◌, true, not, [], ◌∷◌, MatchResult};
ghost use Rattle.cam.specs.Defects.{has_word, has_cell, is_good, storage_with, with_storage, settled, with_pair, with_stuck_mark, unmarked};
ghost use Rattle.cam.specs.Refusals.{Asks, ask};
ghost use Rattle.planes.specs.Planes.{build_of, state_of, KeepsLater};

use crate::array::PlaneArray;
use cam::defect::{Pair, Storage, StorageDefect};
use cam::fault::{Fault, Reason};
use cam::index::{CellIndex, WordIndex};

impl PlaneArray {
    fn has_cell(&self, cell: CellIndex) -> bool
        ensures inside_array { result ≡ has_cell (build_of self.now) cell.word.number cell.column.number }
    {
        cell.word.number < self.size.words && cell.column.number < self.size.width
    }

    // Gives a cell a storage defect. An sa0 cell then holds 0, an sa1 cell 1.
    pub fn plant_storage(&mut self, cell: CellIndex, defect: StorageDefect) -> Result<(), Fault>
        ensures asks_place_then_storage { Asks (ask (has_cell (build_of self.old) cell.word.number cell.column.number) 42 ∷ ask (is_good ((build_of self.old).storage cell.word.number cell.column.number)) 43 ∷ []) result }
        ensures only_this_defect_planted { MatchResult result (λ _. build_of self.new ≡ with_storage cell.word.number cell.column.number (storage_with defect) (build_of self.old)) (λ _. self.new ≡ self.old) }
        ensures only_held_bit_settled { MatchResult result (λ _. state_of self.new ≡ settled cell.word.number cell.column.number (storage_with defect) (state_of self.old)) (λ _. self.new ≡ self.old) }
        ensures later_records_stay { KeepsLater self.old self.new }
    {
        if !self.has_cell(cell) {
            return Err(Fault::of_call(Reason::OutsideArray));
        }
        let at = cell.word.number as usize;
        if self.records[at].storage(cell.column) != Storage::Good {
            return Err(Fault::of_call(Reason::DefectRepeated));
        }
        self.records[at].plant_storage(cell.column, defect);
        Ok(())
    }

    // Puts a pair into a cell's wrong set.
    pub fn plant_pair(&mut self, cell: CellIndex, pair: Pair) -> Result<(), Fault>
        ensures asks_place_then_pair { Asks (ask (has_cell (build_of self.old) cell.word.number cell.column.number) 42 ∷ ask (not ((build_of self.old).wrong cell.word.number cell.column.number pair.held pair.comparand)) 43 ∷ []) result }
        ensures only_this_pair_planted { MatchResult result (λ _. build_of self.new ≡ with_pair cell.word.number cell.column.number pair.held pair.comparand (build_of self.old)) (λ _. self.new ≡ self.old) }
        ensures state_stays { MatchResult result (λ _. state_of self.new ≡ state_of self.old) (λ _. self.new ≡ self.old) }
        ensures later_records_stay { KeepsLater self.old self.new }
    {
        if !self.has_cell(cell) {
            return Err(Fault::of_call(Reason::OutsideArray));
        }
        let at = cell.word.number as usize;
        if self.records[at].wrong_set(cell.column).contains(pair) {
            return Err(Fault::of_call(Reason::DefectRepeated));
        }
        self.records[at].plant_pair(cell.column, pair);
        Ok(())
    }

    // Makes the mark of a word stuck, and so clear.
    pub fn plant_stuck_mark(&mut self, word: WordIndex) -> Result<(), Fault>
        ensures asks_place_then_mark { Asks (ask (has_word (build_of self.old) word.number) 42 ∷ ask (not ((build_of self.old).stuck word.number)) 43 ∷ []) result }
        ensures only_this_mark_planted { MatchResult result (λ _. build_of self.new ≡ with_stuck_mark word.number (build_of self.old)) (λ _. self.new ≡ self.old) }
        ensures only_this_mark_cleared { MatchResult result (λ _. state_of self.new ≡ unmarked word.number (state_of self.old)) (λ _. self.new ≡ self.old) }
        ensures later_records_stay { KeepsLater self.old self.new }
    {
        if word.number >= self.size.words {
            return Err(Fault::of_call(Reason::OutsideArray));
        }
        let at = word.number as usize;
        if self.records[at].stuck {
            return Err(Fault::of_call(Reason::DefectRepeated));
        }
        self.records[at].stick_mark();
        Ok(())
    }
}
