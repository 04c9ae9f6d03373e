// A word number and a column number are types of their own, so that one is never passed for the other.
ghost use Rattle.std.specs.Prelude.{◌≡◌};

// The number of a word, counted from 0. It may lie past the last word of an array.
#[derive(Clone, Copy)]
pub struct WordIndex {
    pub number: u16,
}

// The number of a column, counted from 0: bit `number` of a word, of weight 2^number.
#[derive(Clone, Copy)]
pub struct ColumnIndex {
    pub number: u8,
}

// A cell: its word and its column.
#[derive(Clone, Copy)]
pub struct CellIndex {
    pub word: WordIndex,
    pub column: ColumnIndex,
}

impl CellIndex {
    // The cell of this word in this column.
    pub fn at(word: u16, column: u8) -> CellIndex
        ensures this_word_and_column { result ≡ record { word = record { number = word }; column = record { number = column } } }
    {
        CellIndex {
            word: WordIndex { number: word },
            column: ColumnIndex { number: column },
        }
    }
}
