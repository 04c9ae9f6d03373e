// Tickets of any number. A second bench gives them, and takes them back, since nobody can let a ticket go.
use anyhow::Context;
use bench::bench::Bench;
use bench::books::Ticket;
use cam::size::Size;
use planes::array::PlaneArray;
use planes::word::WordRecord;
use std::alloc::Global;

const ONE_CELL: Size = Size { words: 1, width: 1 };

#[derive(Drop)]
pub struct TicketOffice {
    bench: Bench<PlaneArray>,
}

impl TicketOffice {
    pub(crate) fn open(heap: Global) -> anyhow::Result<TicketOffice> {
        let records = vec![in heap; WordRecord::blank(); 1]?;
        let array = PlaneArray::new(records, ONE_CELL)
            .ok()
            .context("no bench for tickets")?;
        Ok(TicketOffice {
            bench: Bench::new(array),
        })
    }

    // Starts a run, and quits it at once.
    fn spend_number(&mut self) {
        if let Ok(ticket) = self.bench.start() {
            let _ = self.bench.quit(ticket);
        }
    }

    // The ticket of this number, and the office that gives it.
    pub(crate) fn with_ticket(heap: Global, number: u64) -> anyhow::Result<(TicketOffice, Ticket)> {
        let mut office = TicketOffice::open(heap)?;
        for _ in 1..number {
            office.spend_number();
        }
        let ticket = office.bench.start().ok().context("no ticket")?;
        Ok((office, ticket))
    }

    pub(crate) fn take_back(&mut self, ticket: Ticket) {
        let _ = self.bench.quit(ticket);
    }

    // Whether the ticket fits the office's next run.
    fn fits_next(&mut self, ticket: &Ticket) -> bool {
        let Ok(own) = self.bench.start() else {
            return false;
        };
        let fits = self.bench.step(ticket, 0).is_ok();
        let _ = self.bench.quit(own);
        fits
    }

    // The number of a ticket, up to `most`, which an office that has given none yet finds by trying; else 0.
    pub(crate) fn number_of(&mut self, ticket: Ticket, most: u64) -> u64 {
        let found = (1..=most).find(|_| self.fits_next(&ticket));
        self.take_back(ticket);
        found.unwrap_or(0)
    }
}
