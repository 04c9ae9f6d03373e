// Operations by hand. Each asks whether no run is in hand (51), then, where it has one, for the word (52) and for the
// pattern and the mask (53), and last whether the tally stays within the bench's limit (54).
// `build_stays` and `refused_changes_nothing` are written out in each call of the bench, as the array's own contracts have
// theirs: a name is no shorter.
ghost use Rattle.std.specs.Prelude.{◌≡◌, ◌&&◌, IfOk, OnOk, OnErr, nat_lt};
ghost use Rattle.std.specs.Fn.{FnOnceReturnsAtMut};
ghost use Rattle.cam.specs.Model.{written, erased, counted, read_word, hit};
ghost use Rattle.cam.specs.Refusals.{Asks};
ghost use Rattle.cam.specs.declared.operation.Operation.TheVariants.{Write, Read, Compare, Erase};
ghost use Rattle.bench.specs.Books.{handled};
ghost use Rattle.bench.specs.Questions.{hand_questions, narrow, room};

use crate::bench::{Bench, LIMIT};
use cam::array::CamArray;
use cam::bits::low_ones;
use cam::fault::{Fault, Reason};
use cam::index::WordIndex;
use cam::operation::Operation;

impl<C: CamArray> Bench<C> {
    fn has_word(&self, word: WordIndex) -> bool
        ensures word_of_the_array { result ≡ nat_lt word.number (C.build self.now.array).words }
    {
        word.number < self.array.words()
    }

    fn is_narrow(&self, pattern: u64, mask: u64) -> bool
        ensures no_bit_past_the_width { result ≡ (narrow (C.build self.now.array) pattern && narrow (C.build self.now.array) mask) }
    {
        let ones = low_ones(self.array.width());
        pattern <= ones && mask <= ones
    }

    // Whether so many operations more stay within the limit.
    pub(crate) fn has_room(&self, operations: u32) -> bool
        ensures within_the_limit { result ≡ room (C.state self.now.array) operations }
    {
        self.array.tally() + operations as u64 <= LIMIT
    }

    // Asks the questions of an operation by hand.
    fn may_operate(&self, operation: Operation) -> Result<(), Fault>
        ensures asks_in_order { Asks (hand_questions (C.build self.now.array) (C.state self.now.array) self.now.books operation) result }
    {
        let (word_there, narrow_enough) = match operation {
            Operation::Write {
                word,
                pattern,
                mask,
            } => (self.has_word(word), self.is_narrow(pattern, mask)),
            Operation::Read { word } => (self.has_word(word), true),
            Operation::Compare { pattern, mask } => (true, self.is_narrow(pattern, mask)),
            Operation::Erase { word } => (self.has_word(word), true),
        };
        self.books.must_be_idle()?;
        if !word_there {
            Err(Fault::of_call(Reason::NoSuchWord))
        } else if !narrow_enough {
            Err(Fault::of_call(Reason::PatternTooWide))
        } else if !self.has_room(1) {
            Err(Fault::of_call(Reason::LimitPassed))
        } else {
            Ok(())
        }
    }

    // Asks the questions of an operation by hand, does it on the array, and counts it.
    fn by_hand<R, F: FnOnce(&mut C) -> R>(
        &mut self,
        operation: Operation,
        act: F,
    ) -> Result<R, Fault>
        requires callable { F.IsAlwaysCallable act }
        ensures asks_in_order { Asks (hand_questions (C.build self.old.array) (C.state self.old.array) self.old.books operation) result }
        ensures done { IfOk result (λ answer. FnOnceReturnsAtMut F.FnOnce act self.old.array answer self.new.array) }
        ensures counted_by_hand { OnOk result (self.new.books ≡ handled self.old.books) }
        ensures refused_changes_nothing { OnErr result (self.new ≡ self.old) }
    {
        self.may_operate(operation)?;
        let answer = act(&mut self.array);
        self.books.hand = self.books.hand.saturating_add(1);
        Ok(answer)
    }

    pub fn write(&mut self, word: WordIndex, pattern: u64, mask: u64) -> Result<(), Fault>
        ensures asks_in_order { Asks (hand_questions (C.build self.old.array) (C.state self.old.array) self.old.books (Write word pattern mask)) result }
        ensures word_written { OnOk result (C.state self.new.array ≡ written (C.build self.old.array) word.number pattern mask (C.state self.old.array)) }
        ensures counted_by_hand { OnOk result (self.new.books ≡ handled self.old.books) }
        ensures build_stays { C.build self.new.array ≡ C.build self.old.array }
        ensures refused_changes_nothing { OnErr result (self.new ≡ self.old) }
    {
        let operation = Operation::Write {
            word,
            pattern,
            mask,
        };
        self.by_hand(operation, |array| array.write(word, pattern, mask))
    }

    pub fn read(&mut self, word: WordIndex) -> Result<u64, Fault>
        ensures asks_in_order { Asks (hand_questions (C.build self.old.array) (C.state self.old.array) self.old.books (Read word)) result }
        ensures held_bits { IfOk result (λ bits. bits ≡ read_word (C.build self.old.array) word.number (C.state self.old.array)) }
        ensures tallied { OnOk result (C.state self.new.array ≡ counted (C.state self.old.array)) }
        ensures counted_by_hand { OnOk result (self.new.books ≡ handled self.old.books) }
        ensures build_stays { C.build self.new.array ≡ C.build self.old.array }
        ensures refused_changes_nothing { OnErr result (self.new ≡ self.old) }
    {
        self.by_hand(Operation::Read { word }, |array| array.read(word))
    }

    pub fn compare(&mut self, pattern: u64, mask: u64) -> Result<bool, Fault>
        ensures asks_in_order { Asks (hand_questions (C.build self.old.array) (C.state self.old.array) self.old.books (Compare pattern mask)) result }
        ensures some_word_matches { IfOk result (λ yes. yes ≡ hit (C.build self.old.array) pattern mask (C.state self.old.array)) }
        ensures tallied { OnOk result (C.state self.new.array ≡ counted (C.state self.old.array)) }
        ensures counted_by_hand { OnOk result (self.new.books ≡ handled self.old.books) }
        ensures build_stays { C.build self.new.array ≡ C.build self.old.array }
        ensures refused_changes_nothing { OnErr result (self.new ≡ self.old) }
    {
        self.by_hand(Operation::Compare { pattern, mask }, |array| {
            array.compare(pattern, mask)
        })
    }

    pub fn erase(&mut self, word: WordIndex) -> Result<(), Fault>
        ensures asks_in_order { Asks (hand_questions (C.build self.old.array) (C.state self.old.array) self.old.books (Erase word)) result }
        ensures word_erased { OnOk result (C.state self.new.array ≡ erased (C.build self.old.array) word.number (C.state self.old.array)) }
        ensures counted_by_hand { OnOk result (self.new.books ≡ handled self.old.books) }
        ensures build_stays { C.build self.new.array ≡ C.build self.old.array }
        ensures refused_changes_nothing { OnErr result (self.new ≡ self.old) }
    {
        self.by_hand(Operation::Erase { word }, |array| array.erase(word))
    }
}
