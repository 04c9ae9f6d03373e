// A run of MLT-1 that goes on from where it stands.
ghost use Rattle.std.specs.Prelude.{◌≡◌, ℕ, ◌+◌, ◌<◌, min, [], map, length, if◌then◌else◌, nat_lt};
ghost use Rattle.cam.specs.Model.{tally_cap};
ghost use Rattle.march.specs.Tests.{schedule, meant};
ghost use Rattle.mlt1.specs.Mlt1.{mlt1};
ghost use Rattle.mlt1.specs.Left.{left, at_start, Went};

use crate::state::RunState;
use crate::table::elements;
use cam::array::CamArray;
use cam::size::size_of;
use march::element::Element;
use march::step::perform;

impl RunState {
    // Where a run starts: nothing is done, and the whole schedule is left, whatever the size of the array.
    pub fn start() -> RunState
        ensures first_operation_next { result ≡ at_start }
        ensures whole_schedule_left { (N W : ℕ) → left N W result ≡ schedule N W mlt1 }
        ensures at_place_0 { result.place ≡ 0 }
        ensures no_miss_yet { result.misses ≡ 0 }
    {
        RunState {
            element: 0,
            visit: 0,
            operation: 0,
            place: 0,
            misses: 0,
        }
    }

    // How many operations the run has done.
    pub fn place(&self) -> u32
        ensures operations_done { result ≡ self.now.place }
    {
        self.place
    }

    // How many of them missed.
    pub fn misses(&self) -> u32
        ensures misses_counted { result ≡ self.now.misses }
    {
        self.misses
    }

    // Does the next operation on the array and moves on, and says whether there was one: at its end the run does
    // nothing.
    pub fn advance<C: CamArray>(&mut self, array: &mut C) -> bool
        ensures unless_at_end { result ≡ nat_lt 0 (length (left (C.build array.old).words (C.build array.old).width self.old)) }
        ensures next_step_done { Went (C.build array.old) (if result then 1 else 0) self.old self.new (C.state array.old) (C.state array.new) }
        ensures build_stays { C.build array.new ≡ C.build array.old }
    {
        self.advance_in(&elements(), array)
    }

    // The same, with the table of MLT-1 handed on, so that it is not built anew for each step. A plain array: a struct that
    // says which table it is would be opened in each function that has it.
    fn advance_in<C: CamArray>(&mut self, table: &[Element; 7], array: &mut C) -> bool
        requires table_of_mlt1 { map meant table.now ≡ mlt1 }
        ensures unless_at_end { result ≡ nat_lt 0 (length (left (C.build array.old).words (C.build array.old).width self.old)) }
        ensures next_step_done { Went (C.build array.old) (if result then 1 else 0) self.old self.new (C.state array.old) (C.state array.new) }
        ensures build_stays { C.build array.new ≡ C.build array.old }
    {
        let Some(step) = self.next_step(table, size_of(array)) else {
            return false;
        };
        let missed = perform(array, step);
        self.pass(missed);
        true
    }

    // Does the next operations, at most `most` of them, and says how many: fewer only where fewer are left.
    pub fn advance_by<C: CamArray>(&mut self, array: &mut C, most: u32) -> u32
        ensures most_or_all_left { result ≡ min most (length (left (C.build array.old).words (C.build array.old).width self.old)) }
        ensures tally_rises_by_answer { (C.state array.new).tally ≡ min ((C.state array.old).tally + result) tally_cap }
        ensures next_steps_done { Went (C.build array.old) result self.old self.new (C.state array.old) (C.state array.new) }
        ensures build_stays { C.build array.new ≡ C.build array.old }
    {
        // no table where nothing is asked for
        if most == 0 {
            return 0;
        }
        let table = elements();
        // a loop and no chain, since each step changes the array
        for done in 0..most {
            if !self.advance_in(&table, array) {
                return done;
            }
        }
        most
    }
}
