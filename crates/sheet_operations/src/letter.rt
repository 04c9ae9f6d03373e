// The letter that an operation begins with: w, r, c or e.
ghost use Rattle.words.specs.Going.{GoesOn};
ghost use Rattle.words.specs.Readings.{Reading};
ghost use Rattle.sheet_operations.specs.Letters.{spelling, LetterNext, head_to};

use cam::fault::Fault;
use words::cursor::Cursor;
use words::form::{Spelled, not_wanted};

#[derive(Clone, Copy, PartialEq, Eq)]
pub enum Letter {
    Write,
    Read,
    Compare,
    Erase,
}

impl Spelled for Letter {
    ghost use Rattle.sheet_operations.specs.Letters.{letters_differ};

    ghost spelling = { spelling };

    ghost differ = { letters_differ };

    fn spelled(word: &[u8]) -> Option<Letter> {
        match word {
            b"w" => Some(Letter::Write),
            b"r" => Some(Letter::Read),
            b"c" => Some(Letter::Compare),
            b"e" => Some(Letter::Erase),
            _ => None,
        }
    }
}

// Reads the letter of an operation. Answers its place too, where the meaning refuses it.
pub fn read_letter(cursor: &mut Cursor) -> Result<(Letter, usize), Fault>
    ensures reading { Reading (LetterNext cursor.old.text.now cursor.old.at) (head_to cursor.new.at result) }
    ensures goes_on { GoesOn cursor.old cursor.new }
{
    let word = cursor.any_word()?;
    let letter = Letter::spelled(word.bytes).ok_or(not_wanted(word.from))?;
    Ok((letter, word.from))
}
