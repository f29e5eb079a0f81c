//! What is asked for, and what is answered.
use gregorian::Date;
pub use logreport::kinds::Tenths;
use weather::WeatherFault;

/// The words that ask for the degree days of a bill: its zone, its two read dates and its set point.
#[derive(Clone, Copy, Debug, PartialEq, Eq)]
pub struct Words<'a> {
    pub zone: &'a [u8],
    pub earlier: &'a [u8],
    pub later: &'a [u8],
    pub set_point: &'a [u8],
}

/// A bill whose degree days are asked for: its zone, its two read dates and its set point in tenths.
#[derive(Clone, Copy, Debug, PartialEq, Eq)]
pub struct Request {
    pub zone: u8,
    pub earlier: Date,
    pub later: Date,
    pub set_point: u16,
}

/// Why there is no count of degree days.
#[derive(Clone, Copy, Debug, PartialEq, Eq)]
pub enum NoCount {
    /// The earlier read date is not in the calendar.
    EarlierDate,
    /// The later read date is not in the calendar.
    LaterDate,
    /// The later read date does not come 1 to 62 days after the earlier.
    Days,
    /// Nothing is known of a day that the bill needs.
    Weather(WeatherFault),
}

/// Degree days in tenths: the normal ones, the actual ones, and the difference.
#[derive(Clone, Copy, Debug, PartialEq, Eq)]
pub struct Figures {
    pub normal: i64,
    pub actual: i64,
    pub difference: i64,
}
