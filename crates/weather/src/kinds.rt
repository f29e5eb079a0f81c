//! The refusals of the weather layer.

/// Why a weather log is refused, or the weather of a bill.
#[derive(Clone, Copy, Debug, PartialEq, Eq)]
pub enum WeatherFault {
    /// Nothing is known of a day that a bill needs: its mean, or its normal.
    Unknown { zone: u8, day: u32 },
    /// The log has more than 60,000 bytes.
    LogTooLong,
    /// The number that starts at the place is missing, cut off, not shortest or too large.
    BadNumber { place: usize },
    /// The number or the surplus that starts at the place does not keep to the format.
    OutOfFormat { place: usize },
}
