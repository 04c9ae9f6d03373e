// One word of a plane array.
ghost use Rattle.std.specs.Prelude.{◌≡◌, ℕ, ◌<◌, ◌≤◌, Bool, true, false, ◌&&◌, ◌||◌, if◌then◌else◌, ◌==◌, nat_eq};
ghost use Rattle.cam.specs.Bits.{bit};
ghost use Rattle.cam.specs.Model.{written_bit, word_matches, value, mark_after_write};
ghost use Rattle.cam.specs.Defects.{storage_with, settled_bit, is_pair, in_set};
ghost use Rattle.cam.specs.declared.defect.Storage.TheVariants.{Good};
ghost use Rattle.planes.specs.Word.{blank_record, storage_of, wrong_of, shown, mark_of, defects};

use cam::bits::{bit_is_set, low_ones};
use cam::defect::{Pair, Storage, StorageDefect, WrongSet};
use cam::index::ColumnIndex;

// Bit j of each number belongs to column j: the held bits, the columns with each storage defect, and those with each
// pair in their wrong set. A stuck mark counts as clear, an sa0 cell as 0 and an sa1 cell as 1, whatever is stored;
// where several storage planes have a column, the first of sa0, sa1, norise and nofall counts. Mark and stuck are two flags
// and no `Mark`, since a caller may fill a record with any, also with a stuck mark that is set.
#[derive(Clone, Copy, Default)]
pub struct WordRecord {
    pub held: u64,
    pub mark: bool,
    pub stuck: bool,
    pub sa0: u64,
    pub sa1: u64,
    pub norise: u64,
    pub nofall: u64,
    pub wrong00: u64,
    pub wrong01: u64,
    pub wrong11: u64,
    pub wrong10: u64,
}

impl WordRecord {
    // A word without defects that holds 0 and is not marked.
    pub fn blank() -> WordRecord
        ensures no_bit_mark_or_defect { result ≡ blank_record }
    {
        WordRecord::default()
    }

    // Writes each column whose bit in `mask` is 0, as its storage allows, and sets the mark.
    pub(crate) fn write(&mut self, pattern: u64, mask: u64)
        ensures cells { (w j : ℕ) → w ≤ 64 → shown w self.new j ≡ written_bit w (storage_of self.old) pattern mask (shown w self.old) j }
        ensures mark_set_unless_stuck { mark_of self.new ≡ mark_after_write self.old.stuck (mark_of self.old) }
        ensures defects_stay { defects self.new ≡ defects self.old }
    {
        let next = (pattern & (self.held | !self.norise))
            | (self.held & self.nofall & !self.norise);
        self.held = (self.held & mask) | (next & !mask);
        self.mark = true;
    }

    // What the columns hold: an sa0 cell 0 and an sa1 cell 1, whatever is stored.
    #[tactic(auto, using(cam::proofs::BitLaws::bits))]
    fn shown(&self) -> u64
        ensures bit_of_each_column { (w j : ℕ) → j < w → w ≤ 64 → bit result j ≡ shown w self.now j }
    {
        (self.held | self.sa1) & !self.sa0
    }

    // The held bits below `width`.
    pub(crate) fn read(&self, width: u8) -> u64
        requires few_bits { width ≤ 64 }
        ensures held_bits { result ≡ value width (shown width self.now) }
    {
        self.shown() & low_ones(width)
    }

    // Whether the word is marked and each column below `width` that is not blocked matches.
    pub(crate) fn matches(&self, pattern: u64, mask: u64, width: u8) -> bool
        requires few_bits { width ≤ 64 }
        ensures word_matches { result ≡ word_matches width (wrong_of self.now) pattern mask (mark_of self.now) (shown width self.now) }
    {
        if !self.mark {
            return false;
        }
        let held = self.shown();
        let mismatch = held ^ pattern ^ self.reversed(held, pattern);
        !self.stuck & (mismatch & !mask & low_ones(width) == 0)
    }

    // The columns whose answer is reversed where they hold `held`. Most words have no wrong pair at all: the test for
    // that saves a compare of many words a third of its time.
    #[tactic(auto, using(cam::proofs::BitLaws::bits))]
    fn reversed(&self, held: u64, pattern: u64) -> u64
        ensures columns_with_wrong_pair { (j : ℕ) → j < 64 → bit result j ≡ wrong_of self.now j (bit held j) (bit pattern j) }
    {
        if self.wrong00 | self.wrong01 | self.wrong11 | self.wrong10 == 0 {
            return 0;
        }
        (!held & ((!pattern & self.wrong00) | (pattern & self.wrong01)))
            | (held & ((pattern & self.wrong11) | (!pattern & self.wrong10)))
    }

    // How a column stores. A chain of tests, since the first plane that has the column counts.
    pub(crate) fn storage(&self, column: ColumnIndex) -> Storage
        ensures storage_of_column { result ≡ storage_of self.now column.number }
    {
        let place = column.number;
        if bit_is_set(self.sa0, place) {
            Storage::Sa0
        } else if bit_is_set(self.sa1, place) {
            Storage::Sa1
        } else if bit_is_set(self.norise, place) {
            Storage::NoRise
        } else if bit_is_set(self.nofall, place) {
            Storage::NoFall
        } else {
            Storage::Good
        }
    }

    // The wrong set of a column.
    pub(crate) fn wrong_set(&self, column: ColumnIndex) -> WrongSet
        ensures wrong_set_of_column { (h b : Bool) → in_set result h b ≡ wrong_of self.now column.number h b }
    {
        let place = column.number;
        WrongSet {
            has00: bit_is_set(self.wrong00, place),
            has01: bit_is_set(self.wrong01, place),
            has11: bit_is_set(self.wrong11, place),
            has10: bit_is_set(self.wrong10, place),
        }
    }

    // Gives a column that stores well a storage defect; an sa0 cell then holds 0, an sa1 cell 1.
    #[tactic(auto, using(cam::proofs::BitLaws::bits))]
    pub(crate) fn plant_storage(&mut self, column: ColumnIndex, defect: StorageDefect)
        requires in_a_word { column.number < 64 }
        requires stores_well { storage_of self.old column.number ≡ Good }
        ensures storage_of_column { (i : ℕ) → storage_of self.new i ≡ (if nat_eq i column.number then storage_with defect else storage_of self.old i) }
        ensures held_bits { (w i : ℕ) → column.number < w → w ≤ 64 → shown w self.new i ≡ (if nat_eq i column.number then settled_bit (storage_with defect) (shown w self.old i) else shown w self.old i) }
        ensures stored_bit { bit self.new.held column.number ≡ settled_bit (storage_with defect) (bit self.old.held column.number) }
        ensures wrong_sets_stay { wrong_of self.new ≡ wrong_of self.old }
        ensures mark_stays { mark_of self.new ≡ mark_of self.old }
        ensures stuck_stays { self.new.stuck ≡ self.old.stuck }
    {
        let single = 1u64 << column.number;
        match defect {
            StorageDefect::Sa0 => {
                self.sa0 |= single;
                self.held &= !single;
            }
            StorageDefect::Sa1 => {
                self.sa1 |= single;
                self.held |= single;
            }
            StorageDefect::NoRise => self.norise |= single,
            StorageDefect::NoFall => self.nofall |= single,
        }
    }

    // Puts a pair into the wrong set of a column.
    #[tactic(auto, using(cam::proofs::BitLaws::bits))]
    pub(crate) fn plant_pair(&mut self, column: ColumnIndex, pair: Pair)
        requires in_a_word { column.number < 64 }
        ensures wrong_set_of_column { (i : ℕ) (h b : Bool) → wrong_of self.new i h b ≡ ((i == column.number && is_pair pair.held pair.comparand h b) || wrong_of self.old i h b) }
        ensures storage_stays { storage_of self.new ≡ storage_of self.old }
        ensures held_bits_stay { (w : ℕ) → shown w self.new ≡ shown w self.old }
        ensures mark_stays { mark_of self.new ≡ mark_of self.old }
        ensures stuck_stays { self.new.stuck ≡ self.old.stuck }
    {
        let single = 1u64 << column.number;
        // a plane to write, where `WrongSet::contains` reads a flag
        match (pair.held, pair.comparand) {
            (false, false) => self.wrong00 |= single,
            (false, true) => self.wrong01 |= single,
            (true, true) => self.wrong11 |= single,
            (true, false) => self.wrong10 |= single,
        }
    }

    // Makes the mark stuck.
    pub(crate) fn stick_mark(&mut self)
        ensures stuck { self.new.stuck ≡ true }
        ensures stored_mark_clear { self.new.mark ≡ false }
        ensures mark_clear { mark_of self.new ≡ false }
        ensures storage_stays { storage_of self.new ≡ storage_of self.old }
        ensures wrong_sets_stay { wrong_of self.new ≡ wrong_of self.old }
        ensures held_bits_stay { (w : ℕ) → shown w self.new ≡ shown w self.old }
    {
        self.stuck = true;
        self.mark = false;
    }
}
