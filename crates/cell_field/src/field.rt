// The cell field itself: making it and planting stuck marks.
ghost use Rattle.std.specs.Prelude.{◌≡◌, ◌*◌, ◌≤◌, not, [], ◌∷◌, map, length, MatchResult, nat_le};
ghost use Rattle.cam.specs.Model.{tally_cap};
ghost use Rattle.cam.specs.Defects.{within_limits, has_word, with_stuck_mark, unmarked};
ghost use Rattle.cam.specs.Refusals.{Asks, AsksIn, ask};

use cam::fault::{Fault, Reason, Returned, granted};
use cam::index::WordIndex;
use cam::mark::Mark;
use cam::size::{LARGEST, Size};
use cells::kind::CellKind;

// An array over lent cells: cell (a, j) stands at a × width + j. The marks and the tally are its own, room for the marks
// of the largest array included, since the caller hands over cells alone and a library allocates nothing. That the size is
// within the limits and the cells suffice for it is no ghost field, though `new` asks for it: of a struct that has one and
// holds lent cells the borrow checker does not cover a caller that is given a field and puts it on a bench.
#[derive(Drop)]
pub struct CellField<'a, C> {
    pub(crate) cells: &'a mut [C],
    pub(crate) size: Size,
    pub(crate) marks: [Mark; 256],
    pub(crate) tally: u64,
}

impl<'a, C: CellKind> CellField<'a, C> {
    ghost use Rattle.cell_field.specs.Field.{used, field_build, field_state, build_from, state_from};

    // Makes an array of this size over the caller's cells as they are, marks clear. It asks for 1 to 256 words of 1 to
    // 64 bits (41), then for a cell for each bit (57). Cells past the last word are left alone.
    pub fn new(cells: &'a mut [C], size: Size) -> Result<CellField<'a, C>, Returned<&'a mut [C]>>
        ensures asks_size_then_cells { AsksIn (λ e. e.fault) (ask (within_limits size.words size.width) 41 ∷ ask (nat_le (size.words * size.width) (length cells.old)) 57 ∷ []) result }
        ensures cells_as_lent { MatchResult result (λ f. f.cells.now ≡ cells.old) (λ e. e.back.now ≡ cells.old) }
        ensures made_of_the_cells { MatchResult result (λ f. field_build C.meaning f ≡ build_from size.words size.width (map C.meaning cells.old) []) (λ e. e.back.now ≡ cells.old) }
        ensures marks_clear { MatchResult result (λ f. field_state C.meaning f ≡ state_from size.words size.width (map C.meaning cells.old) [] 0) (λ e. e.back.now ≡ cells.old) }
    {
        let asked = size.ask_fit(
            LARGEST,
            Reason::SizeOutsideLimits,
            size.cells(),
            cells.len(),
        );
        let cells = granted(cells, asked)?;
        Ok(CellField {
            cells,
            size,
            marks: [Mark::Clear; 256],
            tally: 0,
        })
    }

    // The size that the array has: its own, and no words of one bit where the cells would not suffice, which no call makes.
    pub(crate) fn used(&self) -> Size
        ensures used_size { result ≡ used self.now }
        ensures few_words { result.words ≤ 256 }
        ensures some_bits { 1 ≤ result.width }
        ensures few_bits { result.width ≤ 64 }
        ensures cell_for_each_bit { result.words * result.width ≤ length self.now.cells.now }
    {
        let size = self.size;
        if size.words <= LARGEST.words
            && (1..=LARGEST.width).contains(&size.width)
            && size.cells() as usize <= self.cells.len()
        {
            size
        } else {
            Size { words: 0, width: 1 }
        }
    }

    // Makes the mark of a word stuck, and so clear. It asks whether the word is inside the array (42), then whether its
    // mark is not stuck yet (43); a refused call leaves cells and marks as they are.
    pub fn plant_stuck_mark(&mut self, word: WordIndex) -> Result<(), Fault>
        ensures asks_word_then_mark { Asks (ask (has_word (field_build C.meaning self.old) word.number) 42 ∷ ask (not ((field_build C.meaning self.old).stuck word.number)) 43 ∷ []) result }
        ensures cells_stay { self.new.cells.now ≡ self.old.cells.now }
        ensures size_stays { self.new.size ≡ self.old.size }
        ensures tally_stays { self.new.tally ≡ self.old.tally }
        ensures only_this_mark_planted { MatchResult result (λ _. field_build C.meaning self.new ≡ with_stuck_mark word.number (field_build C.meaning self.old)) (λ _. self.new.marks ≡ self.old.marks) }
        ensures only_this_mark_cleared { MatchResult result (λ _. field_state C.meaning self.new ≡ unmarked word.number (field_state C.meaning self.old)) (λ _. self.new.marks ≡ self.old.marks) }
    {
        if word.number >= self.used().words {
            return Err(Fault::of_call(Reason::OutsideArray));
        }
        let place = word.number as usize;
        if self.marks[place] == Mark::Stuck {
            return Err(Fault::of_call(Reason::DefectRepeated));
        }
        self.marks[place] = Mark::Stuck;
        Ok(())
    }
}
