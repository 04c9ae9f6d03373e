// The plane array as an array under test.
ghost use Rattle.std.specs.Prelude.{◌≡◌, take, vec_items};
ghost use Rattle.planes.specs.Formed.{well_formed};
ghost use Rattle.planes.specs.Planes.{build_of, state_of};

use crate::array::PlaneArray;
use crate::word::WordRecord;
use cam::array::CamArray;
use cam::index::WordIndex;
use cam::tally::one_more;

impl PlaneArray {
    // The records of its words.
    fn used(&self) -> &[WordRecord]
        ensures record_of_each_word { result.now ≡ take self.now.size.words (vec_items self.now.records) }
    {
        &self.records.as_slice()[..self.size.words as usize]
    }
}

impl CamArray for PlaneArray {
    ghost build = { build_of };

    ghost state = { state_of };

    ghost formed = { well_formed };

    fn words(&self) -> u16 {
        self.size.words
    }

    fn width(&self) -> u8 {
        self.size.width
    }

    fn tally(&self) -> u64 {
        self.tally
    }

    // The bound is tested, here and in `erase`: a `get_mut` needs a loan of the first records, as there may be more.
    fn write(&mut self, word: WordIndex, pattern: u64, mask: u64) {
        if word.number < self.size.words {
            self.records[word.number as usize].write(pattern, mask);
        }
        self.tally = one_more(self.tally);
    }

    fn read(&mut self, word: WordIndex) -> u64 {
        self.tally = one_more(self.tally);
        let width = self.size.width;
        self.used()
            .get(word.number as usize)
            .map_or(0, |record| record.read(width))
    }

    fn compare(&mut self, pattern: u64, mask: u64) -> bool {
        self.tally = one_more(self.tally);
        let width = self.size.width;
        self.used()
            .iter()
            .any(|record| record.matches(pattern, mask, width))
    }

    fn erase(&mut self, word: WordIndex) {
        if word.number < self.size.words {
            self.records[word.number as usize].mark = false;
        }
        self.tally = one_more(self.tally);
    }
}
