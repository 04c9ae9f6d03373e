// Cases of benches: calls are made on a bench over an array.
use crate::bench_calls::call_of;
use crate::cases::Cases;
use crate::output::{Found, Output, put_answer, put_done, put_found, put_numbers, put_refused};
use crate::scanner::Scanner;
use crate::tickets::TicketOffice;
use bench::bench::Bench;
use bench::calls::Call;
use cam::array::CamArray;
use cam::fault::Returned;
use cam::operation::Operation;
use planes::array::PlaneArray;
use std::alloc::Global;
use std::io::Write;
use std::str::from_utf8;

// What the buffer of a chart holds before.
const FILL: u8 = 170;

// A bench on which calls are made, the heap for what they need, and where their answers go.
#[derive(Drop)]
struct BenchCase<'a> {
    heap: Global,
    out: &'a mut Output,
    bench: Bench<PlaneArray>,
}

impl BenchCase<'_> {
    fn answer_by_hand(&mut self, operation: Operation) -> anyhow::Result<()> {
        match operation {
            Operation::Write {
                word,
                pattern,
                mask,
            } => put_done(self.out, self.bench.write(word, pattern, mask)),
            Operation::Read { word } => put_answer(self.out, self.bench.read(word)),
            Operation::Compare { pattern, mask } => {
                let hit = self.bench.compare(pattern, mask);
                put_answer(self.out, hit.map(|hit| if hit { "hit" } else { "none" }))
            }
            Operation::Erase { word } => put_done(self.out, self.bench.erase(word)),
        }
    }

    fn answer_whole(&mut self) -> anyhow::Result<()> {
        let found = self.bench.run_whole();
        put_found(self.out, found)
    }

    fn answer_start(&mut self) -> anyhow::Result<()> {
        let mut office = TicketOffice::open(self.heap)?;
        match self.bench.start() {
            Ok(ticket) => {
                let most = self.bench.books().starts.saturating_add(1);
                let number = office.number_of(ticket, most);
                writeln!(self.out, "ticket {number}")?;
                Ok(())
            }
            Err(fault) => put_refused(self.out, fault),
        }
    }

    fn answer_step(&mut self, number: u64, most: u32) -> anyhow::Result<()> {
        let (mut office, ticket) = TicketOffice::with_ticket(self.heap, number)?;
        let stepped = self.bench.step(&ticket, most);
        office.take_back(ticket);
        put_answer(self.out, stepped)
    }

    fn answer_close(&mut self, number: u64) -> anyhow::Result<()> {
        let (mut office, ticket) = TicketOffice::with_ticket(self.heap, number)?;
        let closed = self.bench.close(ticket).map_err(|Returned { back, fault }| {
            office.take_back(back);
            fault
        });
        put_found(self.out, closed)
    }

    fn answer_quit(&mut self, number: u64) -> anyhow::Result<()> {
        let (_, ticket) = TicketOffice::with_ticket(self.heap, number)?;
        put_done(self.out, self.bench.quit(ticket))
    }

    // The finding, and every byte of the buffer.
    fn answer_chart(&mut self, bytes: usize) -> anyhow::Result<()> {
        let mut buffer = vec![in self.heap; FILL; bytes]?;
        match self.bench.chart(buffer.as_mut_slice()) {
            Ok(finding) => {
                let found = Found(finding);
                write!(self.out, "{found}")?;
                put_numbers(self.out, buffer.as_slice())
            }
            Err(fault) => put_refused(self.out, fault),
        }
    }

    fn answer_call(&mut self, call: Call) -> anyhow::Result<()> {
        match call {
            Call::ByHand(operation) => self.answer_by_hand(operation),
            Call::Start => self.answer_start(),
            Call::Step { ticket, most } => self.answer_step(ticket, most),
            Call::Close { ticket } => self.answer_close(ticket),
            Call::Quit { ticket } => self.answer_quit(ticket),
            Call::Chart { bytes } => self.answer_chart(bytes),
            Call::Finding => put_found(self.out, Ok(self.bench.finding())),
        }
    }

    // `books HAND STARTS CLOSES CHARTS QUITS RUNNING PLACE MISSES FINDING COUNT TALLY`
    fn put_books(self) -> anyhow::Result<()> {
        let BenchCase {
            heap: _,
            out,
            bench,
        } = self;
        let books = bench.books();
        let (hand, starts, closes) = (books.hand, books.starts, books.closes);
        let (charts, quits) = (books.charts, books.quits);
        let running = u8::from(books.run.is_some());
        let place = books.run.map_or(0, |run| run.place());
        let misses = books.run.map_or(0, |run| run.misses());
        let (finding, count) = (books.finding.number(), books.finding.count());
        let tally = bench.into_array().tally();
        write!(out, "books {hand} {starts} {closes} {charts} {quits} ")?;
        writeln!(out, "{running} {place} {misses} {finding} {count} {tally}")?;
        Ok(())
    }
}

pub(crate) fn answer_bench(cases: &mut Cases<'_>) -> anyhow::Result<()> {
    let bench = Bench::new(cases.array()?);
    let calls = from_utf8(cases.payload()?)?;
    let mut case = BenchCase {
        heap: cases.heap,
        out: &mut cases.out,
        bench,
    };
    for line in calls.split_terminator('\n') {
        let mut words = Scanner::new(line.as_bytes());
        match words.word() {
            b"whole" => case.answer_whole()?,
            name => case.answer_call(call_of(name, &mut words)?)?,
        }
    }
    case.put_books()
}
