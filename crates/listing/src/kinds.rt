//! What a line of the listing says.
use refusal::Refusal;

/// A line after the first.
#[derive(Clone, Copy, Debug, PartialEq, Eq)]
pub enum Line {
    /// The refusal of an order; the weather log is order 0, and orders count from 1.
    Refused { order: u64, refusal: Refusal },
}
