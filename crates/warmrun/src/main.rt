//! The program: reads `weather.log` in its working folder and the orders on standard input, and writes the listing.
#![tactic(auto)]

use logfile::{read_input, read_log};
use std::io;
use std::io::Write;

fn main(rt: HostRuntime) -> io::Result<()> {
    let log = read_log(&rt)?;
    let orders = read_input(rt.alloc(), rt.stdin())?;
    let listing = run::run(rt.alloc(), log.as_slice(), orders.as_slice())?;
    rt.stdout().write_all(listing.as_bytes())
}
