//! A demonstration: a MAC-C key at work, from raw key to mended bit. Each action is printed as it is done.
#![tactic(auto)]

mod day;
mod full_size;
mod keys;
mod printing;
mod refused;
mod sent;
mod small;
mod watching;

fn run(rt: &HostRuntime) -> anyhow::Result<()> {
    small::show(rt)?;
    full_size::show(rt)?;
    watching::show(rt)?;
    day::show(rt)?;
    refused::show(rt)?;
    let figures = figures::figures_proved();
    println!(rt; "")?;
    println!(rt;
        "{figures} worked figures, those of the small key among them, are theorems of the gate."
    )?;
    Ok(())
}

fn main(rt: HostRuntime) -> anyhow::Result<()> {
    run(&rt)
}
