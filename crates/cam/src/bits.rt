// Numbers as rows of bits.
ghost use Rattle.std.specs.Prelude.{◌≡◌, ◌-◌, ◌^◌, min};
ghost use Rattle.cam.specs.Bits.{bit};
ghost use Rattle.cam.specs.Patterns.{equal_bits, all_but};

use crate::index::ColumnIndex;

// The number whose bits below `width` are set; a width past 64 counts as 64.
pub fn low_ones(width: u8) -> u64
    ensures value { result ≡ 2 ^ min width 64 - 1 }
{
    if width >= 64 {
        u64::MAX
    } else {
        (1u64 << width) - 1
    }
}

// Whether bit `place` of a number is 1; past the 64 bits none is.
#[tactic(auto, using(crate::proofs::BitLaws::bit_test, crate::proofs::BitLaws::bit_past_word))]
pub fn bit_is_set(number: u64, place: u8) -> bool
    ensures bit_at_place { result ≡ bit number place }
{
    place < 64 && (number >> place) & 1 == 1
}

// `width` equal bits; a width past 64 counts as 64.
pub fn equal_bits(width: u8, value: bool) -> u64
    ensures pattern { result ≡ equal_bits (min width 64) value }
{
    if value { low_ones(width) } else { 0 }
}

// The mask that blocks every column of `width` but one; a width past 64 counts as 64.
pub fn all_but_column(width: u8, column: ColumnIndex) -> u64
    ensures mask { result ≡ all_but (min width 64) column.number }
{
    if column.number < width && column.number < 64 {
        low_ones(width) - (1u64 << column.number)
    } else {
        low_ones(width)
    }
}
