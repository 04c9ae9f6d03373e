// Charts on a bench.
ghost use Rattle.std.specs.Prelude.{◌≡◌, length, IfOk, OnOk, OnErr};
ghost use Rattle.cam.specs.Operations.{after_all};
ghost use Rattle.cam.specs.Refusals.{Asks};
ghost use Rattle.chart.specs.Chart.{Charted as ChartIn, chart_operations, blemishes};
ghost use Rattle.bench.specs.declared.books.Finding.TheVariants.{Charted};
ghost use Rattle.bench.specs.Books.{charted};
ghost use Rattle.bench.specs.Questions.{chart_questions};

use crate::bench::Bench;
use crate::books::Finding;
use cam::array::CamArray;
use cam::fault::{Fault, Reason};
use cam::size::size_of;
use chart::drawing::{draw, operation_count};

impl<C: CamArray> Bench<C> {
    // Draws the chart at the front of a buffer, if no run is in hand (51), the buffer has a byte for each cell (57) and
    // the tally stays within the limit (54).
    pub fn chart(&mut self, buffer: &mut [u8]) -> Result<Finding, Fault>
        ensures asks_in_order { Asks (chart_questions (C.build self.old.array) (C.state self.old.array) self.old.books (length buffer.old)) result }
        ensures blemished_cells { IfOk result (λ f. f ≡ Charted (blemishes (C.build self.old.array))) }
        ensures every_byte { OnOk result (ChartIn (C.build self.old.array) buffer.old buffer.new) }
        ensures chart_counted { OnOk result (self.new.books ≡ charted (blemishes (C.build self.old.array)) self.old.books) }
        ensures chart_operations_done { OnOk result (C.state self.new.array ≡ after_all (C.build self.old.array) (chart_operations (C.build self.old.array).words (C.build self.old.array).width) (C.state self.old.array)) }
        ensures build_stays { C.build self.new.array ≡ C.build self.old.array }
        ensures refused_changes_nothing { OnErr result (self.new ≡ self.old) }
        ensures refused_leaves_the_buffer { OnErr result (buffer.new ≡ buffer.old) }
    {
        self.books.must_be_idle()?;
        let size = size_of(&self.array);
        if buffer.len() < size.cells() as usize {
            return Err(Fault::of_call(Reason::BufferTooShort));
        }
        if !self.has_room(operation_count(size)) {
            return Err(Fault::of_call(Reason::LimitPassed));
        }
        let finding = Finding::Charted(draw(&mut self.array, buffer));
        self.books.charts = self.books.charts.saturating_add(1);
        self.books.finding = finding;
        Ok(finding)
    }
}
