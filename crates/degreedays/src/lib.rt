//! Degree days, and their variance over the days of a bill: normal less actual, summed.
#![tactic(auto)]

ghost use Rattle.std.specs.Prelude.{◌≡◌};
ghost use Rattle.degreedays.specs.DegreeDays.{degree_days};
ghost use Rattle.degreedays.specs.Sums.{OneSum};

pub mod kinds;
pub mod zone;

pub use kinds::DayDegrees;
pub use zone::ZoneWeather;

/// The degree days of a temperature at a set point: the set point less the temperature, at least 0.
pub fn degree_days(set_point: u16, tenths: i16) -> i32
    ensures { result ≡ degree_days set_point tenths }
{
    (set_point as i32 - tenths as i32).max(0)
}

/// Computes nothing: its contract states that a period has one sum, or one first unknown day.
#[tactic(auto, using(crate::proofs::One::one_sum))]
pub fn sum_is_one()
    ensures { OneSum }
{}
