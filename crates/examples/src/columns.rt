// The masks of single columns, with every worked example beside them.
ghost use Rattle.std.specs.Prelude.{◌≡◌, [], ◌∷◌};
ghost use Rattle.examples.specs.Examples.{Lengths, Norise, JudgedExample, HiddenExample, SameMisses, StuckLeg};

use cam::bits::all_but_column;
use cam::index::ColumnIndex;

const WIDTH: u8 = 3;

// The masks that leave one column of a word of three bits open, for columns 0, 1 and 2.
pub fn single_column_masks() -> [u64; 3]
    ensures masks_6_5_3 { result ≡ 6 ∷ 5 ∷ 3 ∷ [] }
    ensures lengths_of_mlt1_and_chart { Lengths }
    ensures norise_cell_does_not_rise_again { Norise }
    ensures judged_array_has_4_misses { JudgedExample }
    ensures faults_that_hide_each_other_are_found { HiddenExample }
    ensures chart_tells_what_misses_do_not { SameMisses }
    ensures search_transistor_stuck_on { StuckLeg }
{
    [0, 1, 2].map(|number| all_but_column(WIDTH, ColumnIndex { number }))
}
