// The rules of a bench, over every list of calls.
ghost use Rattle.std.specs.Prelude.{◌≡◌};
ghost use Rattle.bench.specs.declared.calls.Call.TheVariants.{ByHand, Chart};
ghost use Rattle.bench.specs.Books.{new_books};
ghost use Rattle.bench.specs.Calls.{desk, chart_bytes, Performs, Performed};
ghost use Rattle.bench.specs.Rules.{Rules};

use crate::bench::Bench;
use crate::books::Ticket;
use crate::calls::Call;
use cam::array::CamArray;
use cam::fault::Returned;
use cam::operation::Operation;
use cam::size::LARGEST;

// A byte for each cell of the largest array.
const CHART_BYTES: usize = LARGEST.words as usize * LARGEST.width as usize;

// By the function that a caller has for each operation, so that the rules are those of these functions.
fn perform_by_hand<C: CamArray>(bench: &mut Bench<C>, operation: Operation)
    ensures call_performed { Performs (C.build bench.old.array) 0 (ByHand operation) (desk (C.state bench.old.array) bench.old.books) (desk (C.state bench.new.array) bench.new.books) }
    ensures build_stays { C.build bench.new.array ≡ C.build bench.old.array }
{
    match operation {
        Operation::Write {
            word,
            pattern,
            mask,
        } => {
            let _ = bench.write(word, pattern, mask);
        }
        Operation::Read { word } => {
            let _ = bench.read(word);
        }
        Operation::Compare { pattern, mask } => {
            let _ = bench.compare(pattern, mask);
        }
        Operation::Erase { word } => {
            let _ = bench.erase(word);
        }
    }
}

// Draws a chart into a buffer of so many bytes, at most one for each cell of the largest array.
fn perform_chart<C: CamArray>(bench: &mut Bench<C>, bytes: usize)
    ensures call_performed { Performs (C.build bench.old.array) chart_bytes (Chart bytes) (desk (C.state bench.old.array) bench.old.books) (desk (C.state bench.new.array) bench.new.books) }
    ensures build_stays { C.build bench.new.array ≡ C.build bench.old.array }
{
    let mut buffer = [0u8; CHART_BYTES];
    let room = bytes.min(CHART_BYTES);
    let _ = bench.chart(&mut buffer[0..room]);
}

// One call. A ticket is made from the number that the call shows, and taken apart where it comes back.
fn perform<C: CamArray>(bench: &mut Bench<C>, call: Call)
    ensures call_performed { Performs (C.build bench.old.array) chart_bytes call (desk (C.state bench.old.array) bench.old.books) (desk (C.state bench.new.array) bench.new.books) }
    ensures build_stays { C.build bench.new.array ≡ C.build bench.old.array }
{
    match call {
        Call::ByHand(operation) => perform_by_hand(bench, operation),
        Call::Start => {
            let _ = bench.start().map(|Ticket { number }| number);
        }
        Call::Step { ticket, most } => {
            let ticket = Ticket { number: ticket };
            let _ = bench.step(&ticket, most);
            let Ticket { number: _ } = ticket;
        }
        Call::Close { ticket } => {
            let _ = bench.close(Ticket { number: ticket }).map_err(|Returned { back, fault }| {
                let Ticket { number: _ } = back;
                fault
            });
        }
        Call::Quit { ticket } => {
            let _ = bench.quit(Ticket { number: ticket });
        }
        Call::Chart { bytes } => {
            perform_chart(bench, bytes);
        }
        Call::Finding => {
            bench.finding();
        }
    }
}

// Makes a bench over an array and performs every call of a list on it, granted or refused, with any tickets, words,
// patterns and masks. Whatever the list, the three rules hold: the finding
// is right, it is open exactly when no run was closed and no chart drawn, and the tally adds up.
pub fn perform_all<C: CamArray>(array: C, calls: &[Call]) -> Bench<C>
    ensures rules_hold { Rules (C.build array) (C.state array).tally (C.state result.array) result.books }
    ensures every_call_performed { Performed (C.build array) chart_bytes calls.now (desk (C.state array) new_books) (desk (C.state result.array) result.books) }
    ensures build_stays { C.build result.array ≡ C.build array }
{
    let mut bench = Bench::new(array);
    for call in calls {
        perform(&mut bench, *call);
    }
    bench
}
