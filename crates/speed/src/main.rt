// The works of the speed comparison (docs/PERFORMANCE.md), done by the product's calls. Usage: speed [WORK REPEATS]. It
// does the work that often and prints a checksum of all results; without arguments it does each work once.
#![tactic(auto)]

mod checksum;
mod coverage;
mod judgement;
mod reading;

use anyhow::{Context, bail};
use coverage::campaign_rows;
use judgement::judgements;
use reading::readings;
use std::env;

// An enum that is matched: a table of closures would be no shorter, and the three works have nothing else in common.
#[derive(Clone, Copy)]
enum Work {
    Judgement,
    Campaign,
    Reading,
}

const WORKS: [(&str, Work); 3] = [
    ("judgement", Work::Judgement),
    ("campaign", Work::Campaign),
    ("reading", Work::Reading),
];

impl Work {
    // Does the work that often, and tells the checksum of its results beside its name.
    fn tell(self, rt: &HostRuntime, name: &str, repeats: u32) -> anyhow::Result<()> {
        let sum = match self {
            Work::Judgement => judgements(rt, repeats)?,
            Work::Campaign => campaign_rows(rt, repeats)?,
            Work::Reading => readings(rt, repeats)?,
        };
        println!(rt; "{name} {sum}")?;
        Ok(())
    }
}

fn tell_one(rt: &HostRuntime, name: &str, repeats: &str) -> anyhow::Result<()> {
    let repeats = repeats.parse::<u32>()?;
    let found = WORKS.iter().find(|(known, _)| *known == name);
    let (name, work) = *found.context("no such work")?;
    work.tell(rt, name, repeats)
}

fn tell_all(rt: &HostRuntime) -> anyhow::Result<()> {
    for (name, work) in WORKS {
        work.tell(rt, name, 1)?;
    }
    Ok(())
}

fn run(rt: &HostRuntime) -> anyhow::Result<()> {
    let mut arguments = env::args(rt)?;
    let _ = arguments.next();
    match (arguments.next(), arguments.next()) {
        (None, None) => tell_all(rt),
        (Some(work), Some(repeats)) => tell_one(rt, work.as_str(), repeats.as_str()),
        _ => bail!("usage: speed [WORK REPEATS]"),
    }
}

fn main(rt: HostRuntime) -> anyhow::Result<()> {
    run(&rt)
}
