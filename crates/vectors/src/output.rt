// Lines of answers.
use bench::books::Finding;
use cam::fault::Fault;
use std::fmt;
use std::fmt::Display;
use std::io::{BufWriter, Stdout, Write};

pub type Output = BufWriter<Stdout>;

// `refused NUMBER`
pub(crate) fn put_refused(out: &mut Output, fault: Fault) -> anyhow::Result<()> {
    let number = fault.number();
    writeln!(out, "refused {number}")?;
    Ok(())
}

// The line of an answer, or the refusal.
pub(crate) fn put_answer<T: Display + Drop>(
    out: &mut Output,
    answer: Result<T, Fault>,
) -> anyhow::Result<()> {
    match answer {
        Ok(answer) => {
            writeln!(out, "{answer}")?;
            Ok(())
        }
        Err(fault) => put_refused(out, fault),
    }
}

// `done`, or the refusal.
pub(crate) fn put_done(out: &mut Output, done: Result<(), Fault>) -> anyhow::Result<()> {
    put_answer(out, done.map(|()| "done"))
}

// `finding NUMBER COUNT`
#[derive(Clone, Copy)]
pub struct Found(pub Finding);

impl Display for Found {
    fn fmt<W: fmt::Write>(&self, f: &mut fmt::Formatter<W>) -> fmt::Result {
        let number = self.0.number();
        let count = self.0.count();
        write!(f, "finding {number} {count}")
    }
}

// The line of a finding, or the refusal.
pub(crate) fn put_found(out: &mut Output, found: Result<Finding, Fault>) -> anyhow::Result<()> {
    put_answer(out, found.map(Found))
}

// Each byte as a number after a space, and a line feed.
pub(crate) fn put_numbers(out: &mut Output, bytes: &[u8]) -> anyhow::Result<()> {
    for number in bytes {
        write!(out, " {number}")?;
    }
    out.write_all(b"\n")?;
    Ok(())
}
