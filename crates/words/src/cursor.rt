// A reader's place in a text, and layer 1: which token stands there next, or which fault.
ghost use Rattle.std.specs.Prelude.{◌≡◌, ℕ, ◌≤◌, Bool, length, drop, IfOk};
ghost use Rattle.std.specs.List.{prefix_len};
ghost use Rattle.words.specs.Lexing.{word_fault, Skips, WordAt, TokenAt, Lexed, Lies, bytes_of};
ghost use Rattle.words.specs.Readings.{Reading};
ghost use Rattle.words.specs.Tokens.{standing, word_of, token_to, lexed_to};

use crate::token::{Kind, Token};
use cam::fault::{Fault, Layer, Reason};
use march::naming::is_letter_or_digit;

const LONGEST_WORD: usize = 16;

// What was read of the text lies before `at`: a place and no shorter slice, since a refusal names it.
#[derive(Clone, Copy)]
pub struct Cursor<'a> {
    pub text: &'a [u8],
    pub at: usize,
    ghost inside: { at ≤ length text.now },
}

// How many bytes at the front pass.
fn run_length<F: Fn(u8) -> bool>(bytes: &[u8], passes: F) -> usize
    requires callable { F.IsAlwaysCallable passes }
    ensures longest_run { (p : ℕ → Bool) → ((b : ℕ) (r : Bool) → F.post passes b r → r ≡ p b) → result ≡ prefix_len p bytes.now }
{
    bytes.iter().take_while(|byte| passes(**byte)).count()
}

impl<'a> Cursor<'a> {
    // here and not at the top, since it speaks of the cursor, whose ghost field imports what the top does
    ghost use Rattle.words.specs.Going.{GoesOn};

    // The front of a text.
    pub fn new(text: &'a [u8]) -> Cursor<'a>
        ensures whole_text { result.text.now ≡ text.now }
        ensures at_the_front { result.at ≡ 0 }
    {
        Cursor { text, at: 0 }
    }

    // What was not read yet.
    fn rest(&self) -> &'a [u8]
        ensures after_the_cursor { result.now ≡ drop self.now.at self.now.text.now }
    {
        &self.text[self.at..]
    }

    // A refusal of what stands here.
    fn refused(&self, reason: Reason) -> Fault
        ensures refused_here { result ≡ word_fault reason self.now.at }
    {
        Fault {
            reason,
            layer: Layer::Words,
            place: self.at,
        }
    }

    // Passes the spaces that come next: mostly one or none, for which a loop costs less than a slice of the rest.
    fn skip_spaces(&mut self)
        ensures spaces_skipped { Skips self.old.text.now self.old.at self.new.at }
        ensures goes_on { GoesOn self.old self.new }
    {
        while let Some(byte) = self.text.get(self.at)
            && *byte == b' '
        {
            self.at += 1;
        }
    }

    // The length of the word that stands here, where no other token does.
    fn word_length(&self) -> Result<usize, Fault>
        ensures word_there { WordAt self.now.text.now self.now.at (standing self.now.at (word_of result)) }
    {
        match run_length(self.rest(), |byte| is_letter_or_digit(byte)) {
            0 => Err(self.refused(Reason::ByteNotAllowed)),
            length if length > LONGEST_WORD => Err(self.refused(Reason::WordTooLong)),
            length => Ok(length),
        }
    }

    // The kind and the length of the token that stands here, where no space does.
    fn token_here(&self) -> Result<(Kind, usize), Fault>
        ensures token_there { TokenAt self.now.text.now self.now.at (standing self.now.at result) }
    {
        match self.text.get(self.at) {
            None => Ok((Kind::End, 0)),
            Some(b'(') => Ok((Kind::Open, 1)),
            Some(b')') => Ok((Kind::Close, 1)),
            Some(b'\n') => Ok((Kind::LineFeed, 1)),
            Some(_) => Ok((Kind::Word, self.word_length()?)),
        }
    }

    // Reads the token that comes next.
    pub fn next_token(&mut self) -> Result<Token<'a>, Fault>
        ensures reading { Reading (Lexed self.old.text.now self.old.at) (lexed_to self.new.at result) }
        ensures lies { IfOk result (λ t. Lies self.old.text.now self.old.at (token_to self.new.at t)) }
        ensures spelling { IfOk result (λ t. t.bytes.now ≡ bytes_of self.old.text.now (token_to self.new.at t)) }
        ensures goes_on { GoesOn self.old self.new }
    {
        self.skip_spaces();
        let from = self.at;
        let (kind, length) = self.token_here()?;
        self.at += length;
        Ok(Token {
            kind,
            from,
            bytes: &self.text[from..self.at],
        })
    }
}
