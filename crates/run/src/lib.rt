//! A run: the weather log is opened, the orders are carried out, and the listing tells what came of it.
#![tactic(auto)]

ghost use Rattle.logformat.specs.Reading.{log_of};
ghost use Rattle.run.specs.Runs.{carried_out, listing as listed};
ghost use Rattle.std.specs.Prelude.{◌≡◌, IfOk, string_bytes};

mod faults;
pub mod kinds;
mod orders;

pub use kinds::{RunFault, Stop};
use orders::first_order;
use std::alloc::{AllocError, Global};

/// The listing of a run.
pub fn run(heap: Global, log: &[u8], orders: &[u8]) -> Result<String, AllocError>
    ensures { IfOk result (λ s. string_bytes s ≡ listed log.now orders.now) }
{
    let mut out = String::new(heap);
    listing::header(&mut out)?;
    if let Err(stop) = carry_out(log, orders) {
        listing::line(heap, &mut out, &stop.into())?;
    }
    Ok(out)
}

/// Opens the weather log and carries out the orders, up to the first fault.
fn carry_out(log: &[u8], orders: &[u8]) -> Result<(), Stop>
    ensures { result ≡ carried_out (log_of log.now) orders.now }
{
    weatherlog::open(log)?;
    first_order(orders).map_err(|fault| Stop { order: 1, fault })
}
