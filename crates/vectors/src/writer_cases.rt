// Cases of the sheet writer: a sheet is written piece by piece.
use crate::cases::Cases;
use crate::output::{Output, put_refused};
use crate::scanner::Scanner;
use anyhow::{Context, bail};
use cam::fault::Returned;
use march::element::{Comparison, TestOperation};
use march::operations::Order;
use sheet_writer::states::{BetweenElements, InsideElement};
use std::io::Write;
use std::str::from_utf8;

// What the buffer holds before the first piece. No piece has it.
const FILL: u8 = b'.';

// A call of the writer.
#[derive(Clone, Copy)]
enum Piece<'a> {
    Begin(&'a [u8]),
    Open(Order),
    Write(TestOperation),
    Close,
    End,
}

// Where a sheet stands.
enum Sheet {
    New,
    Between(BetweenElements),
    Inside(InsideElement),
    Ended,
}

impl Drop for Sheet {
    fn drop(self) {
        match self {
            Sheet::Between(state) => state.abandon(),
            Sheet::Inside(state) => state.abandon(),
            Sheet::New | Sheet::Ended => {}
        }
    }
}

impl From<BetweenElements> for Sheet {
    fn from(state: BetweenElements) -> Sheet {
        Sheet::Between(state)
    }
}

impl From<InsideElement> for Sheet {
    fn from(state: InsideElement) -> Sheet {
        Sheet::Inside(state)
    }
}

// How a call went, and where the sheet stands after it.
type Called = Result<Sheet, Returned<Sheet>>;

// The same of a call with a state, which is refused with it or granted with the next one. Written out, as `judge_text` does.
fn with_sheets<S: Into<Sheet>, T: Into<Sheet>>(called: Result<T, Returned<S>>) -> Called {
    called.map(|next| next.into()).map_err(|Returned { back, fault }| Returned {
        back: back.into(),
        fault,
    })
}

fn call_between(state: BetweenElements, piece: Piece<'_>, buffer: &mut [u8]) -> Option<Called> {
    match piece {
        Piece::Open(order) => Some(with_sheets(state.open(order, buffer))),
        Piece::End => Some(with_sheets(state.end(buffer).map(|_| Sheet::Ended))),
        _ => {
            state.abandon();
            None
        }
    }
}

fn call_inside(state: InsideElement, piece: Piece<'_>, buffer: &mut [u8]) -> Option<Called> {
    match piece {
        Piece::Write(operation) => Some(with_sheets(state.write(operation, buffer))),
        Piece::Close => Some(with_sheets(state.close(buffer))),
        _ => {
            state.abandon();
            None
        }
    }
}

impl Sheet {
    // Makes a call, if it is one that the types of the writer allow. The cases have no other.
    fn call(self, piece: Piece<'_>, buffer: &mut [u8]) -> Option<Called> {
        match self {
            Sheet::New => {
                let Piece::Begin(name) = piece else {
                    return None;
                };
                let back = Sheet::New;
                let begun = BetweenElements::begin(name, buffer).map(Sheet::Between);
                Some(begun.map_err(|fault| Returned { back, fault }))
            }
            Sheet::Between(state) => call_between(state, piece, buffer),
            Sheet::Inside(state) => call_inside(state, piece, buffer),
            Sheet::Ended => None,
        }
    }
}

// A match, since a table of words would have to be searched for what an arm says.
fn order_of(word: &[u8]) -> anyhow::Result<Order> {
    Ok(match word {
        b"up" => Order::Up,
        b"down" => Order::Down,
        b"columns" => Order::Columns,
        _ => bail!("no such order"),
    })
}

fn comparison_of(words: &mut Scanner<'_>) -> anyhow::Result<Comparison> {
    Ok(Comparison {
        bit: words.bit()?,
        hit: match words.word() {
            b"hit" => true,
            b"none" => false,
            _ => bail!("a compare expects hit or none"),
        },
    })
}

fn piece_of(line: &[u8]) -> anyhow::Result<Piece<'_>> {
    let mut words = Scanner::new(line);
    Ok(match words.word() {
        b"begin" => Piece::Begin(words.rest()),
        b"open" => Piece::Open(order_of(words.word())?),
        b"close" => Piece::Close,
        b"end" => Piece::End,
        b"w" => Piece::Write(TestOperation::Write(words.bit()?)),
        b"r" => Piece::Write(TestOperation::Read(words.bit()?)),
        b"c" => Piece::Write(TestOperation::Compare(comparison_of(&mut words)?)),
        b"e" => Piece::Write(TestOperation::Erase),
        _ => bail!("no such piece"),
    })
}

// Prints the answer of a call, how many bytes are written so far or the refusal, and gives where the sheet stands.
fn put_written(out: &mut Output, called: Called, buffer: &[u8]) -> anyhow::Result<Sheet> {
    match called {
        Ok(sheet) => {
            let length = Scanner::new(buffer).before(FILL).len();
            writeln!(out, "done {length}")?;
            Ok(sheet)
        }
        Err(Returned { back, fault }) => {
            put_refused(out, fault)?;
            Ok(back)
        }
    }
}

pub(crate) fn answer_writer(cases: &mut Cases<'_>) -> anyhow::Result<()> {
    let calls = cases.payload()?;
    let mut buffer = cases.buffer(FILL)?;
    let mut sheet = Sheet::New;
    for line in from_utf8(calls)?.split_terminator('\n') {
        let piece = piece_of(line.as_bytes())?;
        let called = sheet
            .call(piece, buffer.as_mut_slice())
            .context("a call that does not fit where the sheet stands")?;
        sheet = put_written(&mut cases.out, called, buffer.as_slice())?;
    }
    cases.out.write_all(buffer.as_slice())?;
    cases.out.write_all(b"\n")?;
    Ok(())
}
