//! The days that a bill covers: from the day after the last read day to the read day.
#![tactic(auto)]

ghost use Rattle.std.specs.Prelude.{◌≡◌, ◌+◌, ◌≤◌};
ghost use Rattle.period.specs.Made.{Made};
ghost use Rattle.period.specs.Periods.{days_before, days_from, days_of};

pub mod kinds;

use gregorian::LAST_DAY;
pub use kinds::{Period, Split};
use std::ops::Range;

/// The most days that a bill covers.
const MOST_DAYS: u64 = 62;

impl Period {
    /// The period between two read days, where there is such a bill.
    pub fn new(last_read: u64, read_day: u64) -> Option<Period>
        ensures { Made last_read read_day result }
    {
        if read_day > u64::from(LAST_DAY)
            || read_day <= last_read
            || read_day - last_read > MOST_DAYS
        {
            return None;
        }
        Some(Period {
            last_read: last_read as u32,
            read_day: read_day as u32,
        })
    }

    /// How many days the period has, from 1 to 62.
    pub fn days(self) -> u32
        ensures value { result ≡ days_of self.last_read self.read_day }
        ensures least { 1 ≤ result }
        ensures most { result ≤ 62 }
    {
        self.read_day - self.last_read
    }

    /// Each day of the period, from the day after the last read day to the read day.
    pub fn each_day(self) -> Range<u32>
        ensures first { result.start ≡ self.last_read + 1 }
        ensures past_last { result.end ≡ self.read_day + 1 }
    {
        self.last_read + 1..self.read_day + 1
    }

    /// The days before a change day and the days from it on.
    pub fn split(self, change_day: u64) -> Split
        ensures before { result.before ≡ days_before self.last_read self.read_day change_day }
        ensures from { result.from ≡ days_from self.last_read self.read_day change_day }
        ensures all { result.before + result.from ≡ days_of self.last_read self.read_day }
    {
        let days = self.days();
        let first = self.last_read as u64 + 1;
        let before = change_day.saturating_sub(first).min(days as u64) as u32;
        Split {
            before,
            from: days - before,
        }
    }
}
