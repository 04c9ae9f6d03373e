// What a line says of a cell or of a mark.
ghost use Rattle.words.specs.Going.{GoesOn};
ghost use Rattle.words.specs.Readings.{Reading, come_to};
ghost use Rattle.array_lines.specs.CellWords.{cell_spelling, cell_words_differ};
ghost use Rattle.array_lines.specs.Cells.{CellFaultNext, CellNext, MarkNext};

use crate::number::number_within;
use cam::defect::{Pair, StorageDefect};
use cam::fault::{Fault, Reason};
use cam::index::{CellIndex, WordIndex};
use cam::size::Size;
use words::cursor::Cursor;
use words::form::Spelled;

// A defect that a line describes: the storage of a cell, a pair in the wrong set of a cell, or a stuck mark.
#[derive(Clone, Copy)]
pub enum Defect {
    Storage {
        cell: CellIndex,
        defect: StorageDefect,
    },
    Wrong {
        cell: CellIndex,
        pair: Pair,
    },
    Mark {
        word: WordIndex,
    },
}

// The word that says what is wrong with a cell. No `Option` of a storage defect, since each case is a word that is read.
#[derive(Clone, Copy)]
pub enum CellWord {
    Storage(StorageDefect),
    Wrong,
}

impl Spelled for CellWord {
    ghost spelling = { cell_spelling };

    fn spelled(word: &[u8]) -> Option<CellWord> {
        match word {
            b"sa0" => Some(CellWord::Storage(StorageDefect::Sa0)),
            b"sa1" => Some(CellWord::Storage(StorageDefect::Sa1)),
            b"norise" => Some(CellWord::Storage(StorageDefect::NoRise)),
            b"nofall" => Some(CellWord::Storage(StorageDefect::NoFall)),
            b"wrong" => Some(CellWord::Wrong),
            _ => None,
        }
    }

    ghost differ = { cell_words_differ };
}

// Reads what is wrong with a cell: a word, and after `wrong` the held bit and the comparand bit.
fn read_cell_fault(cursor: &mut Cursor, cell: CellIndex) -> Result<Defect, Fault>
    ensures reading { Reading (CellFaultNext cursor.old.text.now cell cursor.old.at) (come_to cursor.new.at result) }
    ensures goes_on { GoesOn cursor.old cursor.new }
{
    match cursor.one_of::<CellWord>()? {
        CellWord::Storage(defect) => Ok(Defect::Storage { cell, defect }),
        CellWord::Wrong => {
            let held = cursor.bit_word()?;
            let comparand = cursor.bit_word()?;
            let pair = Pair { held, comparand };
            Ok(Defect::Wrong { cell, pair })
        }
    }
}

// Reads what follows the word `cell`: word and column of an array of this size, each inside it (42), and what is wrong.
pub(crate) fn read_cell(cursor: &mut Cursor, size: Size) -> Result<Defect, Fault>
    ensures reading { Reading (CellNext size.words size.width cursor.old.text.now cursor.old.at) (come_to cursor.new.at result) }
    ensures goes_on { GoesOn cursor.old cursor.new }
{
    let word = number_within(cursor, 0..size.words, Reason::OutsideArray)?;
    let column = number_within(cursor, 0..u16::from(size.width), Reason::OutsideArray)?;
    read_cell_fault(cursor, CellIndex::at(word.value, column.value as u8))
}

// Reads what follows the word `mark`: a word of an array of so many (42).
pub(crate) fn read_mark(cursor: &mut Cursor, words: u16) -> Result<Defect, Fault>
    ensures reading { Reading (MarkNext words cursor.old.text.now cursor.old.at) (come_to cursor.new.at result) }
    ensures goes_on { GoesOn cursor.old cursor.new }
{
    let word = number_within(cursor, 0..words, Reason::OutsideArray)?;
    Ok(Defect::Mark {
        word: WordIndex { number: word.value },
    })
}
