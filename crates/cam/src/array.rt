// The interface of every array under test.
ghost use Rattle.std.specs.Prelude.{◌≡◌};
ghost use Rattle.cam.specs.Model.{Build, State, WellFormed, written, erased, counted, read_word, hit};

use crate::index::WordIndex;

// A content addressable memory. Whoever implements it says by ghost members what his array means, and proves each
// contract against that meaning; all code of the bench is proved from these contracts alone. A pattern and a mask are two
// parameters, as a memory has a register for each: whoever compares changes one and keeps the other. That the build stays
// is said by each function that operates an array: it is a fact of before and after, which no type holds.
pub trait CamArray {
    // what never changes: words, bits of a word, and the defects
    ghost build: { Self → Build };

    // what does: held bits, marks and the tally of operations
    ghost state: { Self → State };

    // every array keeps the limits; sa0 cells hold 0, sa1 cells hold 1, and stuck marks are clear
    ghost formed: { (x : Self) → WellFormed (build x) (state x) };

    // How many words there are.
    fn words(&self) -> u16
        ensures word_count { result ≡ (build self.now).words };

    // How many bits a word has.
    fn width(&self) -> u8
        ensures bits_of_word { result ≡ (build self.now).width };

    // How many operations were done so far, up to 2,000,000,000,000.
    fn tally(&self) -> u64
        ensures operations_so_far { result ≡ (state self.now).tally };

    // Gives each cell of the word its bit of `pattern`, as its storage allows, and sets the mark unless it is stuck.
    // A bit of `mask` that is 1 blocks its column.
    fn write(&mut self, word: WordIndex, pattern: u64, mask: u64)
        ensures state_after_write { state self.new ≡ written (build self.old) word.number pattern mask (state self.old) }
        ensures build_stays { build self.new ≡ build self.old };

    // The held bits of the word, marked or not; 0 past the last word.
    fn read(&mut self, word: WordIndex) -> u64
        ensures held_bits { result ≡ read_word (build self.old) word.number (state self.old) }
        ensures only_counted { state self.new ≡ counted (state self.old) }
        ensures build_stays { build self.new ≡ build self.old };

    // The hit: whether some marked word matches `pattern` in every column that `mask` does not block.
    fn compare(&mut self, pattern: u64, mask: u64) -> bool
        ensures some_word_matches { result ≡ hit (build self.old) pattern mask (state self.old) }
        ensures only_counted { state self.new ≡ counted (state self.old) }
        ensures build_stays { build self.new ≡ build self.old };

    // Clears the word's mark and leaves its held bits.
    fn erase(&mut self, word: WordIndex)
        ensures state_after_erase { state self.new ≡ erased (build self.old) word.number (state self.old) }
        ensures build_stays { build self.new ≡ build self.old };
}
