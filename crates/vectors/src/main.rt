//! Compares the ChaCha20 block and the cipher pad source with a table that another implementation made.
//!
//! The table comes on standard input. What is printed is how many of its lines agree, and the first line that differs;
//! a line that cannot be read is told with its number. The README beside this folder says how the table is made.
#![tactic(auto)]

mod compare;
mod faults;
mod hex;
mod table;

use anyhow::anyhow;
use std::io;
use std::process::ExitCode;

fn main(rt: HostRuntime) -> anyhow::Result<ExitCode> {
    match run(&rt) {
        Ok(()) => Ok(ExitCode::SUCCESS),
        Err(why) => {
            eprintln!(rt; "{why}")?;
            Ok(ExitCode::FAILURE)
        }
    }
}

fn run(rt: &HostRuntime) -> anyhow::Result<()> {
    let text = io::read_to_string(rt.alloc(), rt.stdin())?;
    let tally = compare::compare_all(text.as_str())?;
    println!(rt; "{tally}")?;
    if tally.all_agree() {
        Ok(())
    } else {
        Err(anyhow!("the table and the program differ"))
    }
}
