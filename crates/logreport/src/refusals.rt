//! How a refusal is shown.
ghost use Rattle.logreport.specs.Report.{reason_text, refused_text, subject_text};
ghost use Rattle.std.specs.Prelude.{◌≡◌, Some};

use crate::kinds::{Day, Refused};
use refusal::Refusal;
use std::fmt;
use weather::WeatherFault;

/// What is refused: a log, or the bill that needs a day of which nothing is known.
fn subject(fault: WeatherFault) -> &'static str
    ensures { result.now ≡ subject_text fault }
{
    match fault {
        WeatherFault::Unknown { .. } => "the bill",
        _ => "weather.log",
    }
}

/// Why it is refused.
#[derive(Clone, Copy)]
struct Reason(WeatherFault);

impl fmt::Display for Reason {
    ghost output = { λ x. Some (reason_text x.0) };

    fn fmt<W: fmt::Write>(&self, f: &mut fmt::Formatter<W>) -> fmt::Result {
        match self.0 {
            WeatherFault::Unknown { zone, day } => write!(
                f,
                "nothing is known of {}, day {day}, in zone {zone}",
                Day::Dated(u64::from(day))
            ),
            WeatherFault::LogTooLong => write!(f, "more than 60,000 bytes"),
            WeatherFault::BadNumber { place } => write!(
                f,
                "at byte {place} no whole, shortest number below 2^63 starts"
            ),
            WeatherFault::OutOfFormat { place } => write!(
                f,
                "at byte {place} a number or surplus does not keep to the format"
            ),
        }
    }
}

impl fmt::Display for Refused {
    ghost output = { λ x. Some (refused_text x.0) };

    fn fmt<W: fmt::Write>(&self, f: &mut fmt::Formatter<W>) -> fmt::Result {
        let refusal = Refusal::from(self.0);
        write!(
            f,
            "{} is refused ({}, {}): {}",
            subject(self.0),
            refusal.number,
            refusal.layer,
            Reason(self.0)
        )
    }
}
