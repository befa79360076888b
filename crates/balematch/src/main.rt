//! balematch: reads a ticket from standard input and writes its listing.
#![tactic(auto)]

use anyhow::bail;
use std::io::{Read, Write};

/// One byte more than a ticket may have tells that it is too large.
const ENOUGH: u64 = 65537;

fn run(rt: &HostRuntime) -> anyhow::Result<()> {
    let mut ticket = Vec::new(rt.alloc());
    let _ = rt.stdin().take(ENOUGH).read_to_end(&mut ticket)?;
    // these lines stand in acceptance too: a function that both call is no plainer
    let Ok(listing) = matching::list_ticket(rt.alloc(), ticket.as_slice()) else {
        bail!("out of memory");
    };
    rt.stdout().write_all(listing.as_bytes())?;
    Ok(())
}

fn main(rt: HostRuntime) -> anyhow::Result<()> {
    run(&rt)
}
