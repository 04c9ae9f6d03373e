// From a text to a judgement: the array is read, run and charted.
ghost use Rattle.std.specs.Prelude.{◌≡◌, ◌<◌, ◌≤◌, length, Err, vec_len, MatchResult};
ghost use Rattle.words.specs.Readings.{Reading};
ghost use Rattle.array_text.specs.Texts.{HandedBack};
ghost use Rattle.text_judge.specs.Judging.{JudgeCall, TextJudged};

use array_text::array::read_array;
use bench::judging::{Judged, judge_array};
use cam::fault::{Fault, Reason, Returned};
use cam::size::LARGEST;
use planes::array::PlaneArray;
use planes::word::WordRecord;

// The bytes of the chart of the largest array.
pub const CHART_BYTES: usize = LARGEST.words as usize * LARGEST.width as usize;

// Reads the text of an array, runs MLT-1 on the array that it describes, and draws its chart at the front of a buffer.
// It asks first of all for memory for the largest array (57), 16,384 bytes and 256 records, then the questions of the
// text. Nothing else is ever refused. A refused text leaves the buffer as it is; its records come back as `read_array`
// hands them back.
pub fn judge_text(
    text: &[u8],
    records: Vec<WordRecord>,
    chart: &mut [u8],
) -> Result<Judged<PlaneArray>, Returned<Vec<WordRecord>>>
    ensures text_judged { MatchResult result (λ j. TextJudged (vec_len records) text.now chart.old chart.new j.judgement j.array) (λ e. Reading (JudgeCall (vec_len records) (length chart.old) text.now) (Err e.fault)) }
    ensures refused_leaves_the_chart { MatchResult result (λ _. length chart.new ≡ length chart.old) (λ _. chart.new ≡ chart.old) }
    ensures records_handed_back { MatchResult result (λ _. 256 ≤ vec_len records) (λ e. 16384 ≤ length chart.old → 256 ≤ vec_len records → HandedBack text.now records.items e.back.items) }
    ensures untouched_without_memory { MatchResult result (λ _. 16384 ≤ length chart.old) (λ e. (length chart.old < 16384 → e.back ≡ records) × (vec_len records < 256 → e.back ≡ records)) }
{
    if chart.len() < CHART_BYTES {
        return Err(Returned {
            back: records,
            fault: Fault::of_call(Reason::BufferTooShort),
        });
    }
    let array = read_array(text, records)?;
    // written out: a method that maps what comes back would have the closure's contract in its own
    judge_array(array, chart).map_err(|returned| Returned {
        back: returned.back.into_records(),
        fault: returned.fault,
    })
}
