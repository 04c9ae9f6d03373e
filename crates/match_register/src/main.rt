// An example for makers of arrays: a match register, put on the bench as it is. Copy this crate, put your own array in
// place of the register, and prove the same contracts for it.
#![tactic(auto)]

mod operating;
mod register;

use bench::judging::judge_array;
use cam::fault::Fault;
use register::MatchRegister;

fn tell(rt: &impl Print, name: &str, register: MatchRegister) -> anyhow::Result<()> {
    let mut chart = [0u8; 8];
    let judged = judge_array(register, &mut chart).map_err(Fault::from)?;
    let finding = judged.judgement.finding.number();
    let operations = judged.judgement.operations;
    println!(rt; "{name}: finding {finding} after {operations} operations, chart {chart:?}")?;
    Ok(())
}

fn run(rt: &impl Print) -> anyhow::Result<()> {
    tell(rt, "sound", MatchRegister::new(false))?;
    tell(rt, "stuck mark", MatchRegister::new(true))
}

fn main(rt: HostRuntime) -> anyhow::Result<()> {
    run(&rt)
}
