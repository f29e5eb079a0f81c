//! Day numbers and dates, calendar places, the winter season, and when an ordinary notice takes effect.
//! Day 0 is 1 January 2000, and day 36,524 is 31 December 2099.
#![tactic(auto)]

ghost use Rattle.std.specs.Prelude.{◌≡◌, ◌<◌, ◌≤◌, is_ok, IfOk, Ok, nat_le};
ghost use Rattle.gregorian.specs.Calendar.{Ranged, date_of, dated, effective, in_calendar, in_season, numbered, place_of};
ghost use Rattle.gregorian.specs.Reckon.{in_common_year, in_leap_year, reckoned_date, start_of};

use gregorian::{CalendarFault, Date, LAST_DAY};

/// The year of day 0.
const FIRST_YEAR: u64 = 2000;

/// The year of the last day.
const LAST_YEAR: u64 = 2099;

/// The days of four years, of which the first is a leap year.
const CYCLE: u64 = 1461;

/// The days of a leap year.
const LEAP_YEAR: u64 = 366;

/// The days of a common year.
const COMMON_YEAR: u64 = 365;

/// The days of January and February in a common year.
const BEFORE_MARCH: u64 = 59;

/// The days of a leap year before each month, and of the whole year.
const STARTS: [u16; 13] = [0, 31, 60, 91, 121, 152, 182, 213, 244, 274, 305, 335, 366];

/// The month and the day on which the winter season begins, and notices take effect.
const SEASON_START: (u8, u8) = (12, 1);

/// The month and the day on which the winter season ends.
const SEASON_END: (u8, u8) = (5, 15);

/// The last month whose notices take effect in their own year.
const SEPTEMBER: u8 = 9;

/// The date after `elapsed` days of `year`, which is counted as a leap year.
fn in_leap_year(year: u64, elapsed: u64) -> Date
    requires from { 2000 ≤ year }
    requires to { year ≤ 2099 }
    requires within { elapsed < 366 }
    ensures value { result ≡ in_leap_year year elapsed }
    ensures small { Ranged result }
{
    // Months are shorter than 32 days, so the month is this one or the next.
    let guess = (elapsed / 32) as usize;
    let month = if STARTS[guess + 1] as u64 <= elapsed {
        guess + 1
    } else {
        guess
    };
    Date {
        year: year as u16,
        month: month as u8 + 1,
        day: (elapsed - STARTS[month] as u64) as u8 + 1,
    }
}

/// The date after `elapsed` days of the common year `year`.
fn in_common_year(year: u64, elapsed: u64) -> Date
    requires from { 2000 ≤ year }
    requires to { year ≤ 2099 }
    requires within { elapsed < 365 }
    ensures value { result ≡ in_common_year year elapsed }
    ensures small { Ranged result }
{
    // From March on one day more is counted, for 29 February.
    let counted = if elapsed < BEFORE_MARCH {
        elapsed
    } else {
        elapsed + 1
    };
    in_leap_year(year, counted)
}

/// The date of a day of the calendar, by the cycle of four years in which it lies.
fn reckoned(day: u64) -> Date
    requires { day < 36525 }
    ensures value { result ≡ reckoned_date day }
    ensures small { Ranged result }
{
    let years = 4 * (day / CYCLE);
    let rest = day % CYCLE;
    if rest < LEAP_YEAR {
        return in_leap_year(FIRST_YEAR + years, rest);
    }
    let common = rest - LEAP_YEAR;
    let year = FIRST_YEAR + 1 + common / COMMON_YEAR + years;
    in_common_year(year, common % COMMON_YEAR)
}

/// The date of a day number.
pub fn date_of(day: u64) -> Result<Date, CalendarFault>
    ensures value { result ≡ dated day }
    ensures small { IfOk result (λ x. Ranged x) }
    ensures back { IfOk result (λ x. numbered x.year x.month x.day ≡ Ok day) }
{
    if day > u64::from(LAST_DAY) {
        return Err(CalendarFault::NotInCalendar);
    }
    Ok(reckoned(day))
}

/// The first day of month `month`, from 0, of the year 2000 + `k`.
fn start_of(k: u64, month: u64) -> u64
    requires year { k < 100 }
    requires month { month ≤ 12 }
    ensures { result ≡ start_of k month }
{
    let leap_years = k.div_ceil(4);
    let start = COMMON_YEAR * k + leap_years + STARTS[month as usize] as u64;
    // The table counts 29 February, which a common year does not have.
    if k % 4 == 0 || month < 2 {
        start
    } else {
        start - 1
    }
}

/// The day number of a date, of which each part may be any number.
pub fn day_number(year: u64, month: u64, day: u64) -> Result<u32, CalendarFault>
    ensures value { result ≡ numbered year month day }
    ensures back { IfOk result (λ n. dated n ≡ Ok record { year = year; month = month; day = day }) }
    ensures inside { IfOk result (λ n. n < 36525) }
{
    if !(FIRST_YEAR..=LAST_YEAR).contains(&year)
        || !(1..=12).contains(&month)
        || !(1..=31).contains(&day)
    {
        return Err(CalendarFault::NotInCalendar);
    }
    let k = year - FIRST_YEAR;
    let number = start_of(k, month - 1) + (day - 1);
    if number >= start_of(k, month) {
        return Err(CalendarFault::NotInCalendar);
    }
    Ok(number as u32)
}

/// The calendar place of a day, from 1 to 366: 29 February is 60, and 1 March 61 in every year.
pub fn calendar_place(day: u64) -> Result<u16, CalendarFault>
    ensures value { result ≡ in_calendar day (place_of (date_of day)) }
    ensures range { IfOk result (λ p. (1 ≤ p) × (p ≤ 366)) }
{
    let date = date_of(day)?;
    Ok(STARTS[date.month as usize - 1] + date.day as u16)
}

/// Whether a day lies in the winter season, 1 December to 15 May.
pub fn in_season(day: u64) -> Result<bool, CalendarFault>
    ensures value { result ≡ in_calendar day (in_season (date_of day)) }
{
    let date = date_of(day)?;
    // The season begins with the first day of a month.
    let (first_month, _) = SEASON_START;
    Ok(date.month >= first_month || (date.month, date.day) <= SEASON_END)
}

/// The effective day of an ordinary notice: 1 December of its year, and after 30 September that of the next.
pub fn effective_day(day: u64) -> Result<u32, CalendarFault>
    ensures value { result ≡ effective day }
    ensures until { is_ok result ≡ nat_le day 36432 }
    ensures later { IfOk result (λ n. (day < n) × (n < 36525)) }
{
    let date = date_of(day)?;
    let year = date.year as u64;
    let effective_year = if date.month > SEPTEMBER {
        year + 1
    } else {
        year
    };
    let (month, day) = SEASON_START;
    day_number(effective_year, month as u64, day as u64)
}
