//! How temperatures and days are shown.
ghost use Rattle.logreport.specs.Words.{day_text, days_text, degrees_text, month_name, sign_text, signed_text, tenths_text};
ghost use Rattle.std.specs.Prelude.{◌≡◌, ◌≤◌, Some};

use crate::kinds::{Day, Days, Degrees, SignedTenths, Tenths};
use calendar::date_of;
use std::fmt;

/// The names of the months, from January on.
const MONTHS: [&str; 12] = [
    "January",
    "February",
    "March",
    "April",
    "May",
    "June",
    "July",
    "August",
    "September",
    "October",
    "November",
    "December",
];

/// The name of a month; January is month 1.
fn month_name(month: u8) -> &'static str
    requires from { 1 ≤ month }
    requires to { month ≤ 12 }
    ensures { result.now ≡ month_name month }
{
    MONTHS[usize::from(month) - 1]
}

/// The sign of a number.
fn sign(number: i64) -> &'static str
    ensures { result.now ≡ sign_text number }
{
    if number < 0 { "-" } else { "+" }
}

impl fmt::Display for Tenths {
    ghost output = { λ x. Some (tenths_text x.0) };

    fn fmt<W: fmt::Write>(&self, f: &mut fmt::Formatter<W>) -> fmt::Result {
        write!(f, "{}.{}", self.0 / 10, self.0 % 10)
    }
}

impl fmt::Display for SignedTenths {
    ghost output = { λ x. Some (signed_text x.0) };

    fn fmt<W: fmt::Write>(&self, f: &mut fmt::Formatter<W>) -> fmt::Result {
        write!(f, "{}{}", sign(self.0), Tenths(self.0.unsigned_abs()))
    }
}

impl fmt::Display for Degrees {
    ghost output = { λ x. Some (degrees_text x.0) };

    fn fmt<W: fmt::Write>(&self, f: &mut fmt::Formatter<W>) -> fmt::Result {
        write!(f, "{} °F", SignedTenths(i64::from(self.0)))
    }
}

impl fmt::Display for Day {
    ghost output = { λ x. Some (day_text x) };

    fn fmt<W: fmt::Write>(&self, f: &mut fmt::Formatter<W>) -> fmt::Result {
        let (Day::Dated(number) | Day::Yearly(number)) = *self;
        let Ok(date) = date_of(number) else {
            return write!(f, "day {number}");
        };
        let month = month_name(date.month);
        match self {
            Day::Dated(_) => write!(f, "{} {month} {}", date.day, date.year),
            Day::Yearly(_) => write!(f, "{} {month}", date.day),
        }
    }
}

impl fmt::Display for Days {
    ghost output = { λ x. Some (days_text x.0) };

    fn fmt<W: fmt::Write>(&self, f: &mut fmt::Formatter<W>) -> fmt::Result {
        match self.0 {
            1 => write!(f, "1 day"),
            count => write!(f, "{count} days"),
        }
    }
}
