// Tokens, and the length that a text may have.
ghost use Rattle.std.specs.Prelude.{◌≡◌, Decides};
ghost use Rattle.words.specs.Lexing.{Measured};
ghost use Rattle.words.specs.Readings.{Reading};
ghost use Rattle.words.specs.Tokens.{SaysWord};

use cam::fault::{Fault, Layer, Reason};

const LONGEST_TEXT: usize = 4096;

#[derive(Clone, Copy, PartialEq, Eq)]
pub enum Kind {
    Open,
    Close,
    LineFeed,
    Word,
    End,
}

// A token, the place of its first byte, and its bytes. The end of the text has none.
#[derive(Clone, Copy)]
pub struct Token<'a> {
    pub kind: Kind,
    pub from: usize,
    pub bytes: &'a [u8],
}

impl Token<'_> {
    // Whether it is this word.
    pub fn spells(&self, word: &[u8]) -> bool
        ensures word_told { Decides result (SaysWord self.now word.now) }
    {
        self.kind == Kind::Word && self.bytes == word
    }
}

// Asks whether a text is short enough. Every reader of a text asks this first.
pub fn check_length(text: &[u8]) -> Result<(), Fault>
    ensures reading { Reading (Measured text.now) result }
{
    if text.len() > LONGEST_TEXT {
        return Err(Fault {
            reason: Reason::TextTooLong,
            layer: Layer::Words,
            place: LONGEST_TEXT,
        });
    }
    Ok(())
}
