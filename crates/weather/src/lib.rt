//! Weather sources: what every source of temperatures means, and the refusals of this layer.
#![tactic(auto)]

ghost use Rattle.std.specs.Prelude.{◌≡◌, ℕ, ℤ, Option};
ghost use Rattle.weather.specs.Refusals.{refusal_of};
ghost use Rattle.weather.specs.Temperatures.{AllRanged, Ranged, in_range};
ghost use Rattle.weather.specs.declared.kinds.WeatherFault.TheVariants.{BadNumber};

pub mod kinds;

pub use kinds::WeatherFault;
use packed::NumberFault;
use refusal::{Layer, Refusal};

/// The last zone.
pub const LAST_ZONE: u8 = 15;

/// The lowest and the highest temperature that a source may know, in tenths.
const LOWEST: i64 = -1_000;

const HIGHEST: i64 = 1_500;

/// A source of temperatures, in signed tenths of a degree Fahrenheit.
///
/// It means, for each zone from 0 to 15, a mean for each day of the calendar and a normal for
/// each calendar place from 1 to 366, or nothing known; elsewhere it knows nothing. A question
/// tells the meaning and changes nothing. There are two questions, since a mean stands by its day
/// and a normal by its place.
pub trait Source {
    ghost mean: { Self → ℕ → ℕ → Option ℤ };

    ghost normal: { Self → ℕ → ℕ → Option ℤ };

    /// The mean temperature of a day, where it is known.
    fn mean_on(&self, zone: u8, day: u32) -> Option<i16>
        ensures meaning { result ≡ mean self.now zone day }
        ensures ranged { Ranged zone day 0 36524 result };

    /// The normal temperature at a calendar place, where it is known.
    fn normal_at(&self, zone: u8, place: u16) -> Option<i16>
        ensures meaning { result ≡ normal self.now zone place }
        ensures ranged { Ranged zone place 1 366 result };

    /// Shows the range of all that the source means, whatever is asked. A law would ask this of
    /// every value of the logic, and so of values that a source's own fields cannot have.
    fn show_range(&self)
        ensures means { AllRanged 0 36524 (mean self.now) }
        ensures normals { AllRanged 1 366 (normal self.now) };
}

/// A source that is lent is a source, and means the same.
impl<W: Source> Source for &W {
    ghost mean = { λ s zone day. W.Source.mean s.now zone day };

    ghost normal = { λ s zone place. W.Source.normal s.now zone place };

    fn mean_on(&self, zone: u8, day: u32) -> Option<i16> {
        (**self).mean_on(zone, day)
    }

    fn normal_at(&self, zone: u8, place: u16) -> Option<i16> {
        (**self).normal_at(zone, place)
    }

    fn show_range(&self) {
        (**self).show_range();
    }
}

/// A temperature, where it lies in the range.
pub fn in_range(tenths: i64) -> Option<i16>
    ensures { result ≡ in_range tenths }
{
    if !(LOWEST..=HIGHEST).contains(&tenths) {
        return None;
    }
    Some(tenths as i16)
}

impl From<WeatherFault> for Refusal {
    ghost from_gives = { λ e r. r ≡ refusal_of e };

    fn from(fault: WeatherFault) -> Refusal {
        let (number, first, second) = match fault {
            WeatherFault::Unknown { zone, day } => (11, zone as u64, day as u64),
            WeatherFault::LogTooLong => (20, 0, 0),
            WeatherFault::BadNumber { place } => (21, place as u64, 0),
            WeatherFault::OutOfFormat { place } => (24, place as u64, 0),
        };
        Refusal {
            number,
            layer: Layer::Weather,
            first,
            second,
        }
    }
}

impl From<NumberFault> for WeatherFault {
    ghost from_gives = { λ e r. r ≡ BadNumber e.place };

    fn from(fault: NumberFault) -> WeatherFault {
        WeatherFault::BadNumber { place: fault.place }
    }
}
