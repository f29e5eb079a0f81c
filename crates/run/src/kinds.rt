//! Why and where a run stops.
use weather::WeatherFault;

/// Why a run stops.
#[derive(Clone, Copy, Debug, PartialEq, Eq)]
pub enum RunFault {
    /// The weather log is refused.
    Weather(WeatherFault),
    /// The orders have more than 60,000 bytes.
    OrdersTooLong,
    /// The number that starts at the place is missing, cut off, not shortest or too large.
    BadNumber { place: usize },
    /// No order has the code that starts at the place.
    UnknownOrder { place: usize },
}

/// Where and why a run stops: the weather log is order 0, and orders count from 1.
#[derive(Clone, Copy, Debug, PartialEq, Eq)]
pub struct Stop {
    pub order: u64,
    pub fault: RunFault,
}
