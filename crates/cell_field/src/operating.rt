// The cell field as an array under test.
ghost use Rattle.std.specs.Prelude.{◌≡◌, ◌≤◌, length};
ghost use Rattle.cam.specs.Model.{read_word, hit};
ghost use Rattle.cell_field.specs.Field.{field_build, field_state};
ghost use Rattle.cell_field.specs.Formed.{field_formed};

use crate::field::CellField;
use crate::rows::{read_row, row_matches, write_row};
use cam::array::CamArray;
use cam::index::WordIndex;
use cam::mark::Mark;
use cam::tally::{TALLY_CAP, one_more};
use cells::kind::CellKind;

impl<C: CellKind> CellField<'_, C> {
    // The held bits of a word; 0 past the last word. The bound is tested, here and below, since there may be more cells
    // and marks than words, and a `get` of cells or marks would find those too.
    fn bits_of(&self, word: WordIndex) -> u64
        ensures held_bits { result ≡ read_word (field_build C.meaning self.now) word.number (field_state C.meaning self.now) }
    {
        let size = self.used();
        let width = size.width as usize;
        if word.number < size.words {
            let start = word.number as usize * width;
            read_row(&self.cells[start..start + width])
        } else {
            0
        }
    }

    // Whether some marked word matches. A loop over the marks, since in a chart hardly a word is marked: a chain of rows and
    // marks, which makes the row of each word first, takes half as long again.
    fn hits(&self, pattern: u64, mask: u64) -> bool
        ensures some_word_matches { result ≡ hit (field_build C.meaning self.now) pattern mask (field_state C.meaning self.now) }
    {
        let size = self.used();
        let width = size.width as usize;
        let words = size.words as usize;
        for (word, mark) in self.marks[..words].iter().enumerate() {
            let start = word * width;
            if *mark == Mark::Set && row_matches(&self.cells[start..start + width], pattern, mask) {
                return true;
            }
        }
        false
    }
}

impl<C: CellKind> CamArray for CellField<'_, C> {
    ghost build = { field_build C.meaning };

    ghost state = { field_state C.meaning };

    ghost formed = { field_formed C.meaning C.steady };

    fn words(&self) -> u16 {
        self.used().words
    }

    fn width(&self) -> u8 {
        self.used().width
    }

    fn tally(&self) -> u64 {
        self.tally.min(TALLY_CAP)
    }

    fn write(&mut self, word: WordIndex, pattern: u64, mask: u64) {
        self.tally = one_more(self.tally);
        let size = self.used();
        if word.number >= size.words {
            return;
        }
        let place = word.number as usize;
        let width = size.width as usize;
        let start = place * width;
        write_row(&mut self.cells[start..start + width], pattern, mask);
        self.marks[place] = self.marks[place].written();
    }

    fn read(&mut self, word: WordIndex) -> u64 {
        self.tally = one_more(self.tally);
        self.bits_of(word)
    }

    fn compare(&mut self, pattern: u64, mask: u64) -> bool {
        self.tally = one_more(self.tally);
        self.hits(pattern, mask)
    }

    fn erase(&mut self, word: WordIndex) {
        self.tally = one_more(self.tally);
        if word.number >= self.used().words {
            return;
        }
        let place = word.number as usize;
        self.marks[place] = self.marks[place].erased();
    }
}
