//! `linecheck`: reads a line file on standard input and prints what a door's end makes of it. All that is printed is what the one
//! call `check_line` answers for the file's bytes.
#![tactic(auto)]

use linereport::check_line;
use linewriter::PAGE_SIZE;
use std::io::{Read, Write};

fn main(rt: HostRuntime) -> anyhow::Result<()> {
    let mut file = Vec::new(rt.alloc());
    rt.stdin().read_to_end(&mut file)?;
    let mut out = [0u8; PAGE_SIZE];
    let len = check_line(&file, &mut out)?;
    rt.stdout().write_all(&out[..len])?;
    Ok(())
}
