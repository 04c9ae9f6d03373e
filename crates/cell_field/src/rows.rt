// Rows of cells: the cells of a word stand side by side. Each function asks for at most 64 of them: a struct of a row with
// that limit would be made anew for each call, once to read and once to write.
ghost use Rattle.std.specs.Prelude.{◌≡◌, ℕ, ◌<◌, ◌≤◌, map, length};
ghost use Rattle.cam.specs.Model.{value};
ghost use Rattle.cell_field.specs.Row.{at, wrote_cell, row_matches};

use cam::bits::bit_is_set;
use cells::kind::CellKind;

// The bits that the cells of a word hold.
pub(crate) fn read_row<C: CellKind>(row: &[C]) -> u64
    requires few_bits { length row.now ≤ 64 }
    ensures held_bits { result ≡ value (length row.now) (λ j. (at (map C.meaning row.now) j).held) }
{
    // a loop, since for a fold from the last cell on it stays open that the shifted bits are the value of the row
    let mut bits = 0u64;
    for (column, cell) in row.iter().enumerate() {
        if cell.held() {
            bits += 1u64 << column;
        }
    }
    bits
}

// Whether each cell of a word that is not blocked matches.
pub(crate) fn row_matches<C: CellKind>(row: &[C], pattern: u64, mask: u64) -> bool
    requires few_bits { length row.now ≤ 64 }
    ensures each_cell_matches { result ≡ row_matches (length row.now) pattern mask (map C.meaning row.now) }
{
    row.iter().enumerate().all(|(column, cell)| {
        bit_is_set(mask, column as u8) || cell.answer(bit_is_set(pattern, column as u8))
    })
}

// Gives each cell of a word that is not blocked its bit of the pattern.
pub(crate) fn write_row<C: CellKind>(row: &mut [C], pattern: u64, mask: u64)
    requires few_bits { length row.old ≤ 64 }
    ensures each_cell_written { (j : ℕ) → j < length row.old → at (map C.meaning row.new) j ≡ wrote_cell pattern mask j (at (map C.meaning row.old) j) }
{
    for (column, cell) in row.iter_mut().enumerate() {
        if !bit_is_set(mask, column as u8) {
            cell.take(bit_is_set(pattern, column as u8));
        }
    }
}
