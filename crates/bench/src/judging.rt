// The judging of one array from start to end.
ghost use Rattle.std.specs.Prelude.{◌≡◌, length, IfOk, IfErr, OnOk, OnErr};
ghost use Rattle.cam.specs.Refusals.{Asks, AsksIn};
ghost use Rattle.chart.specs.Chart.{Charted as ChartIn};
ghost use Rattle.bench.specs.Books.{new_books};
ghost use Rattle.bench.specs.Judging.{judge_questions, judged_state, Judges};

use crate::bench::Bench;
use crate::books::Finding;
use cam::array::CamArray;
use cam::fault::{Fault, Reason, Returned};
use cam::size::{Size, size_of};
use chart::drawing;
use mlt1::table;

// What a judging tells: the size, the operations of the run and what it found, the operations of the chart (`charting`)
// and how many cells it shows as blemished.
#[derive(Clone, Copy, PartialEq, Eq)]
pub struct Judgement {
    pub size: Size,
    pub operations: u32,
    pub finding: Finding,
    pub charting: u32,
    pub blemished: u32,
}

#[derive(Drop)]
pub struct Judged<C> {
    pub array: C,
    pub judgement: Judgement,
}

// Asks for a byte for each cell (57), and for room in the tally for a run and a chart (54).
fn may_judge<C: CamArray>(bench: &Bench<C>, bytes: usize) -> Result<(), Fault>
    ensures asks_in_order { Asks (judge_questions (C.build bench.now.array) (C.state bench.now.array) bytes) result }
{
    let size = size_of(&bench.array);
    if bytes < size.cells() as usize {
        Err(Fault::of_call(Reason::BufferTooShort))
    } else if !bench.has_room(table::operation_count(size) + drawing::operation_count(size)) {
        Err(Fault::of_call(Reason::LimitPassed))
    } else {
        Ok(())
    }
}

// Judges the array of a new bench.
fn judge_on<C: CamArray>(bench: &mut Bench<C>, buffer: &mut [u8]) -> Result<Judgement, Fault>
    requires new_bench { bench.old.books ≡ new_books }
    ensures asks_in_order { Asks (judge_questions (C.build bench.old.array) (C.state bench.old.array) (length buffer.old)) result }
    ensures judgement_is_right { IfOk result (λ j. Judges (C.build bench.old.array) (C.state bench.old.array) j) }
    ensures every_byte { OnOk result (ChartIn (C.build bench.old.array) buffer.old buffer.new) }
    ensures only_these_operations { OnOk result (C.state bench.new.array ≡ judged_state (C.build bench.old.array) (C.state bench.old.array)) }
    ensures build_stays { C.build bench.new.array ≡ C.build bench.old.array }
    ensures refused_changes_nothing { OnErr result (bench.new ≡ bench.old) }
    ensures refused_leaves_the_buffer { OnErr result (buffer.new ≡ buffer.old) }
{
    may_judge(bench, buffer.len())?;
    let size = size_of(&bench.array);
    let finding = bench.run_whole()?;
    let charted = bench.chart(buffer)?;
    Ok(Judgement {
        size,
        operations: table::operation_count(size),
        finding,
        charting: drawing::operation_count(size),
        blemished: charted.count(),
    })
}

// Makes a bench over an array, runs MLT-1 on it and closes the run, and draws the chart at the front of a buffer. It
// asks for a byte for each cell (57) and for room in the tally (54) before it does anything.
pub fn judge_array<C: CamArray>(array: C, buffer: &mut [u8]) -> Result<Judged<C>, Returned<C>>
    ensures asks_in_order { AsksIn (λ e. e.fault) (judge_questions (C.build array) (C.state array) (length buffer.old)) result }
    ensures judgement_is_right { IfOk result (λ j. Judges (C.build array) (C.state array) j.judgement) }
    ensures every_byte { OnOk result (ChartIn (C.build array) buffer.old buffer.new) }
    ensures only_these_operations { IfOk result (λ j. C.state j.array ≡ judged_state (C.build array) (C.state array)) }
    ensures build_stays { IfOk result (λ j. C.build j.array ≡ C.build array) }
    ensures array_handed_back { IfErr result (λ e. e.back ≡ array) }
    ensures refused_leaves_the_buffer { OnErr result (buffer.new ≡ buffer.old) }
{
    let mut bench = Bench::new(array);
    let judged = judge_on(&mut bench, buffer);
    let array = bench.into_array();
    // a match, since both ways out take the array along
    match judged {
        Ok(judgement) => Ok(Judged { array, judgement }),
        Err(fault) => Err(Returned { back: array, fault }),
    }
}
