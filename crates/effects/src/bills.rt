//! Bills over made-up weather and at made-up variances.
use crate::tables::{Table, residential_195};
use amounts::{
    Amounts, CheckedFigures, Figures, amounts as amounts_of, billing_rate, formula_amount,
    weather_amount,
};
use degreedays::ZoneWeather;
use gregorian::LAST_PLACE;
use period::Period;
use sources::{StandIn, StationTable};
use tariff::{Class, Sheet, Status, Terms};
use weather::{Source, WeatherFault};

/// How far below the set point the normals lie, in tenths of a degree.
const BELOW: i16 = 600;

/// A mean that no source knows: it is out of range.
const NOT_READ: i16 = i16::MIN;

/// The places of a calendar year, which a station's normals stand by.
const PLACES: usize = LAST_PLACE as usize;

/// The read days of the worked bills: 25 December 2024 and 24 January 2025.
pub const DECEMBER_25: u32 = 9_125;

pub const JANUARY_24: u32 = 9_155;

/// The formula amount of a bill whose first day the station did not read: by the station alone, and
/// with another that has this day.
#[derive(Clone, Copy)]
pub struct GapBills {
    pub alone: Result<i64, WeatherFault>,
    pub helped: Result<i64, WeatherFault>,
}

/// The normal temperature of every day, in tenths of a degree.
fn normal(terms: Terms) -> i16 {
    terms.set_point as i16 - BELOW
}

/// The formula amount of a bill with one margin over the weather of zone 0.
fn zone_amount<W: Source>(
    source: &W,
    terms: Terms,
    margin: u64,
    status: Status,
    period: Period,
) -> Option<Result<i64, WeatherFault>> {
    let figures = Figures {
        later_margin: margin,
        ..Figures::default()
    };
    let checked = CheckedFigures::try_from(figures).ok()?;
    let weather = ZoneWeather { source, zone: 0 };
    Some(weather_amount(&weather, terms, status, period, checked))
}

/// The formula amount of a bill by a table, read on `read_day`, after thirty days at their normals
/// but for the first, which was warmer by some tenths of a degree.
pub fn weather_bill(table: &Table, status: Status, read_day: u32, warmer: i16) -> Option<i64> {
    let last_read = read_day.checked_sub(30)?;
    let normal = normal(table.terms);
    let mut means = [normal; 30];
    means[0] = normal.checked_add(warmer)?;
    let source = StationTable {
        zone: 0,
        first_day: last_read + 1,
        means: &means,
        normals: &[normal; PLACES],
    };
    let period = Period::new(last_read as u64, read_day as u64)?;
    zone_amount(&source, table.terms, table.margin, status, period)?.ok()
}

/// A residential bill by Schedule 195 from 25 December 2024 to 24 January 2025, whose first day was
/// colder by some tenths of a degree.
pub fn gap_bills(colder: i16) -> Option<GapBills> {
    let Table { terms, margin, .. } = residential_195();
    let normal = normal(terms);
    let mut means = [normal; 30];
    means[0] = NOT_READ;
    let station = StationTable {
        zone: 0,
        first_day: DECEMBER_25 + 1,
        means: &means,
        normals: &[normal; PLACES],
    };
    let other = StationTable {
        zone: 0,
        first_day: DECEMBER_25 + 1,
        means: &[normal.checked_sub(colder)?],
        normals: &[],
    };
    let both = StandIn {
        first: &station,
        second: other,
    };
    let period = Period::new(DECEMBER_25 as u64, JANUARY_24 as u64)?;
    Some(GapBills {
        alone: zone_amount(&station, terms, margin, Status::In, period)?,
        helped: zone_amount(&both, terms, margin, Status::In, period)?,
    })
}

/// The amounts of a residential bill from 25 December 2024 to 24 January 2025 at a variance.
pub fn bill<S: Sheet>(sheet: &S, variance: i32, figures: Figures) -> Option<Amounts> {
    let period = Period::new(DECEMBER_25 as u64, JANUARY_24 as u64)?;
    let checked = CheckedFigures::try_from(figures).ok()?;
    let formula = formula_amount(variance, S::terms(Class::Residential), period, checked);
    let billing_rate = billing_rate(checked, 0)?;
    Some(amounts_of(sheet, Class::Residential, formula, checked, billing_rate, 0))
}
