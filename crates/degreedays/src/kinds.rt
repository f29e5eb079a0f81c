//! The degree days of a day.

/// The degree days of a day at a set point, in tenths: by its normal temperature, and by its mean.
#[derive(Clone, Copy, Debug, PartialEq, Eq)]
pub struct DayDegrees {
    pub normal: i32,
    pub actual: i32,
}
