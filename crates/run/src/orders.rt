//! The orders of a run, read from the front.
ghost use Rattle.run.specs.Orders.{code_at, first_order};
ghost use Rattle.std.specs.Prelude.{◌≡◌};

use crate::kinds::RunFault;
use packed::Number;

/// The most bytes that the orders of a run may have.
const MOST_BYTES: usize = 60_000;

/// Reads the code of the order at a place: none at the end of the orders.
fn next_code(orders: &[u8], at: usize) -> Result<Option<Number>, RunFault>
    ensures { result ≡ code_at orders.now at }
{
    if at >= orders.len() {
        return Ok(None);
    }
    Ok(Some(packed::read(orders, at)?))
}

/// Reads the first order, if there is one; no code is known yet.
pub fn first_order(orders: &[u8]) -> Result<(), RunFault>
    ensures { result ≡ first_order orders.now }
{
    if orders.len() > MOST_BYTES {
        return Err(RunFault::OrdersTooLong);
    }
    match next_code(orders, 0)? {
        Some(_) => Err(RunFault::UnknownOrder { place: 0 }),
        None => Ok(()),
    }
}
