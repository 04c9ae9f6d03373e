// The register as an array under test.
ghost use Rattle.match_register.specs.Register.{register_build, register_state, register_formed};

use crate::register::MatchRegister;
use cam::array::CamArray;
use cam::index::WordIndex;
use cam::mark::Mark;
use cam::tally::{TALLY_CAP, one_more};

const WORDS: u16 = 1;

const WIDTH: u8 = 8;

impl CamArray for MatchRegister {
    ghost build = { register_build };

    ghost state = { register_state };

    ghost formed = { register_formed };

    fn words(&self) -> u16 {
        WORDS
    }

    fn width(&self) -> u8 {
        WIDTH
    }

    fn tally(&self) -> u64 {
        self.tally.min(TALLY_CAP)
    }

    fn write(&mut self, word: WordIndex, pattern: u64, mask: u64) {
        self.tally = one_more(self.tally);
        if word.number >= WORDS {
            return;
        }
        self.held = (self.held & mask) | (pattern & !mask);
        self.mark = self.mark.written();
    }

    fn read(&mut self, word: WordIndex) -> u64 {
        self.tally = one_more(self.tally);
        if word.number < WORDS {
            self.held & 255
        } else {
            0
        }
    }

    fn compare(&mut self, pattern: u64, mask: u64) -> bool {
        self.tally = one_more(self.tally);
        (self.mark == Mark::Set) & ((self.held ^ pattern) & !mask & 255 == 0)
    }

    fn erase(&mut self, word: WordIndex) {
        self.tally = one_more(self.tally);
        if word.number < WORDS {
            self.mark = self.mark.erased();
        }
    }
}
