//! The count of a bill's degree days, day by day and in sum.
ghost use Rattle.degreereport.specs.Counts.{count_text, counted, lines_of, sums_of};
ghost use Rattle.degreereport.specs.Requests.{read_days, read_days_of};
ghost use Rattle.gregorian.specs.Calendar.{numbered};
ghost use Rattle.std.specs.Prelude.{◌≡◌, ◌++◌, IfOk, OnOk, string_bytes};
ghost use Rattle.std.specs.Result.{result_map_both};

use crate::kinds::{Figures, NoCount, Request};
use calendar::day_number;
use degreedays::ZoneWeather;
use gregorian::{CalendarFault, Date};
use logreport::kinds::{Day, Days};
use period::Period;
use std::alloc::{AllocError, Global};
use weather::Source;

/// The day number of a date.
fn number_of(date: Date) -> Result<u32, CalendarFault>
    ensures { result ≡ numbered date.year date.month date.day }
{
    day_number(
        u64::from(date.year),
        u64::from(date.month),
        u64::from(date.day),
    )
}

impl Request {
    /// The days of the bill, or why there are none.
    pub fn period(self) -> Result<Period, NoCount>
        ensures { result_map_both (λ p. read_days p.last_read p.read_day) (λ reason. reason) result ≡ read_days_of self }
    {
        let last_read = number_of(self.earlier).map_err(|_| NoCount::EarlierDate)?;
        let read_day = number_of(self.later).map_err(|_| NoCount::LaterDate)?;
        Period::new(u64::from(last_read), u64::from(read_day)).ok_or(NoCount::Days)
    }
}

/// A count that is asked for: the weather of a zone, a set point, the days, and their variance.
#[derive_where(Clone, Copy)]
pub struct Count<'a, W> {
    weather: ZoneWeather<'a, W>,
    set_point: u16,
    period: Period,
    variance: i32,
}

impl<'a, W: Source> Count<'a, W> {
    ghost use Rattle.degreereport.specs.Views.{count_of, degrees_of};

    /// The count that a request asks for, or why there is none.
    pub fn new(source: &'a W, request: Request) -> Result<Self, NoCount>
        ensures source { IfOk result (λ c. c.weather.source.now ≡ source.now) }
        ensures zone { IfOk result (λ c. c.weather.zone ≡ request.zone) }
        ensures set_point { IfOk result (λ c. c.set_point ≡ request.set_point) }
        ensures counted { result_map_both count_of (λ reason. reason) result
            ≡ counted request (W.Source.normal source.now request.zone) (W.Source.mean source.now request.zone) }
    {
        let Request {
            zone,
            set_point,
            ..
        } = request;
        let period = request.period()?;
        let weather = ZoneWeather { source, zone };
        let variance = weather.variance(set_point, period)?;
        Ok(Count {
            weather,
            set_point,
            period,
            variance,
        })
    }

    /// Appends the line of each day that is known.
    fn push_days(&self, out: &mut String) -> Result<(), AllocError>
        ensures { OnOk result (string_bytes out.new ≡ string_bytes out.old ++ lines_of (degrees_of W.Source self.now) (count_of self.now)) }
    {
        for day in self.period.each_day() {
            if let Some(degrees) = self.weather.degrees(self.set_point, day) {
                let day = Day::Dated(u64::from(day));
                writeln!(out, "{day}: {}", Figures::from(degrees))?;
            }
        }
        Ok(())
    }

    /// The figures of the days in sum.
    fn sums(&self) -> Figures
        ensures { result ≡ sums_of (degrees_of W.Source self.now) (count_of self.now) }
    {
        let mut normal = 0;
        let mut actual = 0;
        for day in self.period.each_day() {
            if let Some(degrees) = self.weather.degrees(self.set_point, day) {
                normal += i64::from(degrees.normal);
                actual += i64::from(degrees.actual);
            }
        }
        Figures {
            normal,
            actual,
            difference: i64::from(self.variance),
        }
    }

    /// The lines of the days, and the line of their sum.
    #[tactic(auto, unfolding(crate::specs::Counts::sum_line))]
    pub fn text(&self, heap: Global) -> Result<String, AllocError>
        ensures { IfOk result (λ s. string_bytes s ≡ count_text (degrees_of W.Source self.now) (count_of self.now)) }
    {
        let mut out = String::new(heap);
        self.push_days(&mut out)?;
        writeln!(out, "{}: {}", Days(self.period.days()), self.sums())?;
        Ok(out)
    }
}
