//! The parts of a report, each of which is shown as text.
use logsummary::{Extreme, Gap, Summary};
use weather::WeatherFault;

/// Tenths, shown with one decimal.
#[derive(Clone, Copy, Debug, PartialEq, Eq)]
pub struct Tenths(pub u64);

/// Tenths, shown with their sign and one decimal.
#[derive(Clone, Copy, Debug, PartialEq, Eq)]
pub struct SignedTenths(pub i64);

/// A temperature in tenths of a degree Fahrenheit, shown in degrees with its sign.
#[derive(Clone, Copy, Debug, PartialEq, Eq)]
pub struct Degrees(pub i16);

/// A day, shown by its date.
#[derive(Clone, Copy, Debug, PartialEq, Eq)]
pub enum Day {
    /// A day of the calendar, by its number.
    Dated(u64),
    /// A day of every year, by its number from 0 in a leap year.
    Yearly(u64),
}

/// A number of days.
#[derive(Clone, Copy, Debug, PartialEq, Eq)]
pub struct Days(pub u32);

/// A series of a zone, shown by its name, and the days that its places stand for.
#[derive(Clone, Copy, Debug, PartialEq, Eq)]
pub enum Timeline {
    /// The means of the days from the first on.
    Means { first: u32 },
    /// The normals of the days of a year.
    Normals,
}

/// The coldest and the warmest of a series, where something is known.
#[derive(Clone, Copy, Debug, PartialEq, Eq)]
pub struct Extremes {
    pub timeline: Timeline,
    pub ends: Option<(Extreme, Extreme)>,
}

/// The longest gap of a series.
#[derive(Clone, Copy, Debug, PartialEq, Eq)]
pub struct LongestGap {
    pub timeline: Timeline,
    pub gap: Gap,
}

/// A series of a zone.
#[derive(Clone, Copy, Debug, PartialEq, Eq)]
pub struct SeriesReport {
    pub timeline: Timeline,
    pub summary: Summary,
}

/// A zone of a log: its number from 0, its first day, its days, and its series.
#[derive(Clone, Copy, Debug, PartialEq, Eq)]
pub struct ZoneReport {
    pub number: usize,
    pub first: u32,
    pub days: u32,
    pub means: Summary,
    pub normals: Summary,
}

/// A fault, shown as what is refused for it, by which refusal, and why.
#[derive(Clone, Copy, Debug, PartialEq, Eq)]
pub struct Refused(pub WeatherFault);
