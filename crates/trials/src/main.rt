// The edges of the format, tried one by one. A trial that fails ends the program with an error.
#![tactic(auto)]

mod common;
mod damage;
mod desk;
mod lengths;
mod order;
mod pieces;
mod rounds;

fn trials(rt: &HostRuntime) -> anyhow::Result<()> {
    lengths::run(rt)?;
    order::run(rt)?;
    pieces::run(rt)?;
    rounds::run(rt)?;
    damage::run(rt)?;
    println!(rt; "All as it should be")?;
    Ok(())
}

fn main(rt: HostRuntime) -> anyhow::Result<()> {
    trials(&rt)
}
