// What a word answers while it is charted, and the byte that follows for each of its cells.
ghost use Rattle.std.specs.Prelude.{◌≡◌, ◌≤◌, nat_lt};
ghost use Rattle.chart.specs.Bytes.{byte_of};
ghost use Rattle.chart.specs.Chart.{count_below};

use cam::bits::bit_is_set;
use cam::index::ColumnIndex;

// Bit j of each number belongs to column j. `zeros` and `ones` are what was read after a write of 0 and of 1; `zero0`
// and `zero1` are the columns on which a compare with 0 and with 1 hit after the write of 0, `one1` and `one0` those
// after the write of 1. `seen` says whether the word hit with every column blocked.
#[derive(Clone, Copy)]
pub struct Answers {
    pub zeros: u64,
    pub seen: bool,
    pub zero0: u64,
    pub zero1: u64,
    pub ones: u64,
    pub one1: u64,
    pub one0: u64,
}

impl Answers {
    // The byte of a column.
    pub fn byte(&self, column: ColumnIndex) -> u8
        ensures byte_of_answers { result ≡ byte_of self.now column.number }
    {
        let at = column.number;
        let zero = !bit_is_set(self.zeros, at);
        let one = bit_is_set(self.ones, at);
        (self.seen && (zero && !bit_is_set(self.zero0, at))) as u8
            + 2 * (zero && bit_is_set(self.zero1, at)) as u8
            + 4 * (self.seen && (one && !bit_is_set(self.one1, at))) as u8
            + 8 * (one && bit_is_set(self.one0, at)) as u8
            + 16 * !one as u8
            + 32 * !zero as u8
            + 64 * !self.seen as u8
    }

    // How many of the columns below `width` have a byte above 0.
    pub(crate) fn blemished(&self, width: u8) -> u32
        ensures bytes_above_0 { result ≡ count_below width (λ j. nat_lt 0 (byte_of self.now j)) }
        ensures at_most_the_width { result ≤ width }
    {
        (0..width)
            .filter(|number| self.byte(ColumnIndex { number: *number }) > 0)
            .count() as u32
    }
}
