// Calls of a bench, read from their lines.
use crate::scanner::Scanner;
use anyhow::bail;
use bench::calls::Call;
use cam::index::WordIndex;
use cam::operation::Operation;

fn word_index(words: &mut Scanner<'_>) -> anyhow::Result<WordIndex> {
    Ok(WordIndex {
        number: words.number()?,
    })
}

fn operation_of(name: &[u8], words: &mut Scanner<'_>) -> anyhow::Result<Operation> {
    Ok(match name {
        b"w" => Operation::Write {
            word: word_index(words)?,
            pattern: words.number()?,
            mask: words.number()?,
        },
        b"r" => Operation::Read {
            word: word_index(words)?,
        },
        b"c" => Operation::Compare {
            pattern: words.number()?,
            mask: words.number()?,
        },
        b"e" => Operation::Erase {
            word: word_index(words)?,
        },
        _ => bail!("no such call of a bench"),
    })
}

// The call of this name.
pub(crate) fn call_of(name: &[u8], words: &mut Scanner<'_>) -> anyhow::Result<Call> {
    Ok(match name {
        b"start" => Call::Start,
        b"step" => Call::Step {
            ticket: words.number()?,
            most: words.number()?,
        },
        b"close" => Call::Close {
            ticket: words.number()?,
        },
        b"quit" => Call::Quit {
            ticket: words.number()?,
        },
        b"chart" => Call::Chart {
            bytes: words.number()?,
        },
        b"finding" => Call::Finding,
        _ => Call::ByHand(operation_of(name, words)?),
    })
}
