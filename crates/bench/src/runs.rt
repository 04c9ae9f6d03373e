// Runs of MLT-1 and their tickets.
ghost use Rattle.std.specs.Prelude.{◌≡◌, ◌-◌, min, length, Some, IfOk, IfErr, OnOk, OnErr};
ghost use Rattle.cam.specs.Refusals.{Asks, AsksIn};
ghost use Rattle.mlt1.specs.Left.{left, Went};
ghost use Rattle.bench.specs.Books.{run_in_hand, started, with_run, found, closed, stopped};
ghost use Rattle.bench.specs.Questions.{start_questions, step_questions, close_questions, quit_questions};

use crate::bench::{Bench, LIMIT};
use crate::books::{Finding, Ticket};
use cam::array::CamArray;
use cam::fault::{Fault, Reason, Returned};
use cam::size::size_of;
use mlt1::state::RunState;
use mlt1::table::operation_count;

impl<C: CamArray> Bench<C> {
    // Starts a run at place 0, if none is in hand (51) and the tally and the starts stay within the limit (54).
    pub fn start(&mut self) -> Result<Ticket, Fault>
        ensures asks_in_order { Asks (start_questions (C.build self.old.array) (C.state self.old.array) self.old.books) result }
        ensures ticket_with_the_number_of_starts { IfOk result (λ ticket. ticket.number ≡ self.new.books.starts) }
        ensures run_started { OnOk result (self.new.books ≡ started self.old.books) }
        ensures array_stays { self.new.array ≡ self.old.array }
        ensures refused_changes_nothing { OnErr result (self.new ≡ self.old) }
    {
        self.books.must_be_idle()?;
        let operations = operation_count(size_of(&self.array));
        if !self.has_room(operations) || self.books.starts >= LIMIT {
            return Err(Fault::of_call(Reason::LimitPassed));
        }
        self.books.starts = self.books.starts.saturating_add(1);
        self.books.run = Some(RunState::start());
        Ok(Ticket {
            number: self.books.starts,
        })
    }

    // The run of a ticket (55).
    fn run_of(&self, number: u64) -> Result<RunState, Fault>
        ensures asks_in_order { Asks (step_questions self.now.books number) result }
        ensures that_in_hand { IfOk result (λ run. self.now.books.run ≡ Some run) }
    {
        self.books
            .run
            .filter(|_| number == self.books.starts)
            .ok_or(Fault::of_call(Reason::TicketDoesNotFit))
    }

    // The run of a ticket (55), if it is at its end (56).
    fn ended_run(&self, number: u64) -> Result<RunState, Fault>
        ensures asks_in_order { Asks (close_questions (C.build self.now.array) self.now.books number) result }
        ensures that_in_hand { IfOk result (λ run. self.now.books.run ≡ Some run) }
    {
        let run = self.run_of(number)?;
        if run.place() != operation_count(size_of(&self.array)) {
            return Err(Fault::of_call(Reason::RunNotAtEnd));
        }
        Ok(run)
    }

    // Does the next operations of the run, at most `most`, if the ticket fits (55), and says how many.
    pub fn step(&mut self, ticket: &Ticket, most: u32) -> Result<u32, Fault>
        ensures asks_in_order { Asks (step_questions self.old.books ticket.now.number) result }
        ensures most_or_all_left { IfOk result (λ n. n ≡ min most (length (left (C.build self.old.array).words (C.build self.old.array).width (run_in_hand self.old.books)))) }
        ensures next_steps_done { IfOk result (λ n. Went (C.build self.old.array) n (run_in_hand self.old.books) (run_in_hand self.new.books) (C.state self.old.array) (C.state self.new.array)) }
        ensures other_books_stay { OnOk result (self.new.books ≡ with_run (run_in_hand self.new.books) self.old.books) }
        ensures build_stays { C.build self.new.array ≡ C.build self.old.array }
        ensures refused_changes_nothing { OnErr result (self.new ≡ self.old) }
    {
        let mut run = self.run_of(ticket.number)?;
        let done = run.advance_by(&mut self.array, most);
        self.books.run = Some(run);
        Ok(done)
    }

    // Closes the run of the ticket (55) at its end (56): the finding is sound where no answer missed, else faulty.
    pub fn close(&mut self, ticket: Ticket) -> Result<Finding, Returned<Ticket>>
        ensures asks_in_order { AsksIn (λ e. e.fault) (close_questions (C.build self.old.array) self.old.books ticket.number) result }
        ensures finding_of_the_misses { IfOk result (λ f. f ≡ found (run_in_hand self.old.books).misses) }
        ensures run_closed { OnOk result (self.new.books ≡ closed self.old.books) }
        ensures array_stays { self.new.array ≡ self.old.array }
        ensures ticket_handed_back { IfErr result (λ e. e.back ≡ ticket) }
        ensures refused_changes_nothing { OnErr result (self.new ≡ self.old) }
    {
        // a match, since both ways out have use for the ticket
        match self.ended_run(ticket.number) {
            Ok(run) => {
                let Ticket { number: _ } = ticket;
                let finding = match run.misses() {
                    0 => Finding::Sound,
                    misses => Finding::Faulty(misses),
                };
                self.books.closes = self.books.closes.saturating_add(1);
                self.books.run = None;
                self.books.finding = finding;
                Ok(finding)
            }
            Err(fault) => Err(Returned {
                back: ticket,
                fault,
            }),
        }
    }

    // Takes the ticket and ends its run (55), whose operations are counted as those of a run that was quit. The finding
    // stays.
    pub fn quit(&mut self, ticket: Ticket) -> Result<(), Fault>
        ensures asks_in_order { Asks (quit_questions self.old.books ticket.number) result }
        ensures run_stopped { OnOk result (self.new.books ≡ stopped self.old.books) }
        ensures array_stays { self.new.array ≡ self.old.array }
        ensures refused_changes_nothing { OnErr result (self.new ≡ self.old) }
    {
        let Ticket { number } = ticket;
        let run = self.run_of(number)?;
        self.books.quits = self.books.quits.saturating_add(run.place() as u64);
        self.books.run = None;
        Ok(())
    }
}
