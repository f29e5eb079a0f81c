//! The weather of one zone, and the degree days by it.
ghost use Rattle.std.specs.Prelude.{◌≡◌, ◌+◌, ◌*◌, ◌≤◌, IfOk, unsigned_abs};
ghost use Rattle.degreedays.specs.DegreeDays.{day_degrees, faulted, variance_of};
ghost use Rattle.degreedays.specs.Sums.{Tells, Within};
ghost use Rattle.degreedays.specs.Zones.{differences_of, means_of, normals_of};
ghost use Rattle.period.specs.Periods.{days_of};

use crate::degree_days;
use crate::kinds::DayDegrees;
use calendar::calendar_place;
use period::Period;
use weather::{Source, WeatherFault};

/// The weather of a zone, by a source that is lent.
#[derive_where(Clone, Copy)]
pub struct ZoneWeather<'a, W> {
    pub source: &'a W,
    pub zone: u8,
}

impl<W: Source> ZoneWeather<'_, W> {
    /// The degree days of a day, where its mean and its normal are known.
    #[tactic(auto, using(crate::proofs::Degrees::place_told, crate::proofs::Degrees::known_both))]
    pub fn degrees(&self, set_point: u16, day: u32) -> Option<DayDegrees>
        ensures value { result ≡ day_degrees set_point (normals_of W.Source self.now) (means_of W.Source self.now) day }
        ensures range { Within (set_point + 1000) result }
    {
        let mean = self.source.mean_on(self.zone, day)?;
        let place = calendar_place(day as u64).ok()?;
        let normal = self.source.normal_at(self.zone, place)?;
        Some(DayDegrees {
            normal: degree_days(set_point, normal),
            actual: degree_days(set_point, mean),
        })
    }

    /// The variance of a period: its normal degree days less its actual ones, or its first unknown day.
    pub fn variance(&self, set_point: u16, period: Period) -> Result<i32, WeatherFault>
        ensures value { result ≡ faulted self.now.zone (variance_of set_point (normals_of W.Source self.now) (means_of W.Source self.now) period.last_read period.read_day) }
        ensures meaning { Tells self.now.zone (differences_of W.Source self.now set_point) period.last_read period.read_day result }
        ensures small { IfOk result (λ v. unsigned_abs v ≤ (set_point + 1000) * days_of period.last_read period.read_day) }
    {
        let zone = self.zone;
        let mut sum = 0;
        for day in period.each_day() {
            let degrees = self
                .degrees(set_point, day)
                .ok_or(WeatherFault::Unknown { zone, day })?;
            sum += degrees.normal - degrees.actual;
        }
        Ok(sum)
    }
}
