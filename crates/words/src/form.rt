// Layer 2, its smallest parts: readers of one token that the grammar wants.
ghost use Rattle.std.specs.Prelude.{◌≡◌, ℕ, List, IfOk, MatchOption};
ghost use Rattle.words.specs.Choosing.{OneOfNext};
ghost use Rattle.words.specs.Forms.{not_wanted, Next, WordNext, NameNext, EitherNext, BitNext};
ghost use Rattle.words.specs.Going.{GoesOn};
ghost use Rattle.words.specs.Lexing.{Lies, bytes_of};
ghost use Rattle.words.specs.Readings.{Reading, come_to, reached};
ghost use Rattle.words.specs.Tokens.{token_to, lexed_to};

use crate::cursor::Cursor;
use crate::token::{Kind, Token};
use cam::fault::{Fault, Layer, Reason};

// The fault of a token that the grammar does not want.
pub fn not_wanted(place: usize) -> Fault
    ensures not_wanted_there { result ≡ not_wanted place }
{
    Fault {
        reason: Reason::NotWanted,
        layer: Layer::Forms,
        place,
    }
}

// A type of which each value is written as one word. Not `TryFrom`, whose contract could not say which word.
pub trait Spelled {
    ghost spelling: { Self → List ℕ };

    // The value that is written so.
    fn spelled(word: &[u8]) -> Option<Self>
        ensures value_of_word { MatchOption result ((x : Self) → word.now ≡ spelling x → ⊥) (λ x. word.now ≡ spelling x) };

    ghost differ: { (x y : Self) → spelling x ≡ spelling y → x ≡ y };
}

impl<'a> Cursor<'a> {
    // Reads the bracket, the line feed or the end that must come next.
    pub fn want(&mut self, kind: Kind) -> Result<(), Fault>
        ensures reading { Reading (Next kind self.old.text.now self.old.at) (reached self.new.at result) }
        ensures goes_on { GoesOn self.old self.new }
    {
        let token = self.next_token()?;
        if token.kind == kind {
            Ok(())
        } else {
            Err(not_wanted(token.from))
        }
    }

    // Reads the word that must come next.
    pub fn want_word(&mut self, word: &[u8]) -> Result<(), Fault>
        ensures reading { Reading (WordNext word.now self.old.text.now self.old.at) (reached self.new.at result) }
        ensures goes_on { GoesOn self.old self.new }
    {
        let token = self.next_token()?;
        if token.spells(word) {
            Ok(())
        } else {
            Err(not_wanted(token.from))
        }
    }

    // Reads the word that comes next, whichever it is.
    pub fn any_word(&mut self) -> Result<Token<'a>, Fault>
        ensures reading { Reading (NameNext self.old.text.now self.old.at) (lexed_to self.new.at result) }
        ensures lies { IfOk result (λ t. Lies self.old.text.now self.old.at (token_to self.new.at t)) }
        ensures spelling { IfOk result (λ t. t.bytes.now ≡ bytes_of self.old.text.now (token_to self.new.at t)) }
        ensures goes_on { GoesOn self.old self.new }
    {
        let token = self.next_token()?;
        match token.kind {
            Kind::Word => Ok(token),
            _ => Err(not_wanted(token.from)),
        }
    }

    // Reads the value that the next word writes.
    pub fn one_of<T: Spelled + Drop>(&mut self) -> Result<T, Fault>
        ensures reading { Reading (OneOfNext T.spelling self.old.text.now self.old.at) (come_to self.new.at result) }
        ensures goes_on { GoesOn self.old self.new }
    {
        let word = self.any_word()?;
        T::spelled(word.bytes).ok_or(not_wanted(word.from))
    }

    // Reads which of two words comes next. Inlined, so that a call compares with its own words and their lengths.
    #[inline(always)]
    pub fn either_word(&mut self, no: &[u8], yes: &[u8]) -> Result<bool, Fault>
        ensures reading { Reading (EitherNext no.now yes.now self.old.text.now self.old.at) (come_to self.new.at result) }
        ensures goes_on { GoesOn self.old self.new }
    {
        let token = self.next_token()?;
        if token.spells(no) {
            Ok(false)
        } else if token.spells(yes) {
            Ok(true)
        } else {
            Err(not_wanted(token.from))
        }
    }

    // Reads the bit that comes next: the word 0 or the word 1.
    pub fn bit_word(&mut self) -> Result<bool, Fault>
        ensures reading { Reading (BitNext self.old.text.now self.old.at) (come_to self.new.at result) }
        ensures goes_on { GoesOn self.old self.new }
    {
        self.either_word(b"0", b"1")
    }
}
