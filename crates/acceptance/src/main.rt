//! The listings of many tickets, one after another, to be compared with what they should be.
#![tactic(auto)]

use anyhow::bail;
use std::io::Write;
use std::{env, fs};

fn run(rt: &HostRuntime) -> anyhow::Result<()> {
    for name in env::args(rt)?.skip(1) {
        let ticket = fs::read(rt, name.as_str())?;
        println!(rt; "== {name}")?;
        // these lines stand in balematch too: a function that both call is no plainer
        let Ok(listing) = matching::list_ticket(rt.alloc(), ticket.as_slice()) else {
            bail!("out of memory");
        };
        rt.stdout().write_all(listing.as_bytes())?;
    }
    Ok(())
}

fn main(rt: HostRuntime) -> anyhow::Result<()> {
    run(&rt)
}
