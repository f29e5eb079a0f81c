//! How a request is written: four words.
ghost use Rattle.std.specs.Prelude.{◌≡◌, ◌≤◌, IfSome};
ghost use Rattle.degreereport.specs.Requests.{date_by, number_up_to, one_digit};

use crate::kinds::{Request, Words};
use gregorian::Date;
use weather::LAST_ZONE;

/// The highest set point, in tenths of a degree Fahrenheit.
const HIGHEST_SET_POINT: u16 = 9_999;

/// A number after one digit more, where that is a digit and the number is not too large.
fn one_digit(value: u16, byte: u8, most: u16) -> Option<u16>
    ensures value { result ≡ one_digit most value byte }
    ensures small { IfSome result (λ n. n ≤ most) }
{
    if !byte.is_ascii_digit() {
        return None;
    }
    let next = 10 * u32::from(value) + u32::from(byte - b'0');
    u16::try_from(next).ok().filter(|next| *next <= most)
}

/// The number that decimal digits write, where it is not too large.
/// Words are bytes and may be no text; `parse` would take text, and a sign before the digits.
#[tactic(auto, using(crate::proofs::Digits::number_some, crate::proofs::Digits::read_more, crate::proofs::Digits::read_stops, crate::proofs::Digits::read_end))]
fn number(bytes: &[u8], most: u16) -> Option<u16>
    ensures value { result ≡ number_up_to most bytes.now }
    ensures small { IfSome result (λ n. n ≤ most) }
{
    if bytes.is_empty() {
        return None;
    }
    let mut value = 0;
    for byte in bytes {
        value = one_digit(value, *byte, most)?;
    }
    Some(value)
}

/// The date that ten bytes write: year, month and day, with hyphens between.
fn date(bytes: &[u8]) -> Option<Date>
    ensures { result ≡ date_by bytes.now }
{
    if bytes.len() != 10 || bytes[4] != b'-' || bytes[7] != b'-' {
        return None;
    }
    Some(Date {
        year: number(&bytes[0..4], 9_999)?,
        month: number(&bytes[5..7], 99)? as u8,
        day: number(&bytes[8..10], 99)? as u8,
    })
}

impl Words<'_> {
    ghost use Rattle.degreereport.specs.Views.{request_of};

    /// The request that the words write.
    pub fn request(&self) -> Option<Request>
        ensures { result ≡ request_of self.now }
    {
        Some(Request {
            zone: number(self.zone, u16::from(LAST_ZONE))? as u8,
            earlier: date(self.earlier)?,
            later: date(self.later)?,
            set_point: number(self.set_point, HIGHEST_SET_POINT)?,
        })
    }
}
