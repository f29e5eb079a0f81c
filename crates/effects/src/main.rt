//! Runs the tables of bill effects that the schedules print, and their worked bills, and compares
//! what the code answers with what is printed.
#![tactic(auto)]

mod bills;
mod tables;
mod worked;

use bills::{DECEMBER_25, JANUARY_24, gap_bills, weather_bill};
use period::Period;
use refusal::{Layer, Refusal};
use std::io;
use tables::{Row, Table, residential_195, tables};
use tariff::Status;
use weather::WeatherFault;
use worked::run_bills;

/// How much colder than normal a day is, in tenths of a degree: 50.0 degree days more.
const COLDER: i16 = 500;

/// The formula amount then of a residential bill by Schedule 195.
const COLDER_AMOUNT: i64 = -627_984;

/// The refusal of a bill whose first day, 26 December 2024, the station of zone 0 did not read.
const UNKNOWN_DAY: Refusal = Refusal {
    number: 11,
    layer: Layer::Weather,
    first: 0,
    second: 9_126,
};

/// The word for a comparison.
fn verdict(agrees: bool) -> &'static str {
    if agrees { "agrees" } else { "DIFFERS" }
}

/// The equivalent therms of a variance in degree days, in ten-thousandths, half up.
fn equivalent_therms(variance: u16, coefficient: u32) -> u64 {
    (10 * variance as u64 * coefficient as u64 + 50) / 100
}

/// The adjustment of a variance in cents, half up, where a bill rises after a warmer period by as
/// much as it falls after a colder one.
fn adjustment(table: &Table, variance: u16) -> Option<u64> {
    let warmer = i16::try_from(10 * variance as u32).ok()?;
    let rise = weather_bill(table, Status::In, JANUARY_24, warmer)?;
    let fall = weather_bill(table, Status::In, JANUARY_24, -warmer)?;
    if rise <= 0 || rise.checked_neg() != Some(fall) {
        return None;
    }
    Some(rise.unsigned_abs().saturating_add(500) / 1000)
}

/// The row that is computed for a variance.
fn row(table: &Table, variance: u16) -> Option<Row> {
    Some(Row {
        variance,
        therms: equivalent_therms(variance, table.terms.coefficient),
        cents: adjustment(table, variance)?,
    })
}

/// Writes what is computed for a row, and whether it is printed so.
fn run_row(rt: &impl Print, table: &Table, printed: Row) -> io::Result<()> {
    let variance = printed.variance;
    match row(table, variance) {
        Some(row) => println!(rt;
            "{variance:4}: {:2}.{:04} therms, ${:2}.{:02}, {}",
            row.therms / 10_000,
            row.therms % 10_000,
            row.cents / 100,
            row.cents % 100,
            verdict(row == printed)
        ),
        None => println!(rt; "{variance:4}: no bill"),
    }
}

/// Runs a table.
fn run_table(rt: &impl Print, table: &Table) -> io::Result<()> {
    println!(rt; "{}", table.title)?;
    for row in table.rows {
        run_row(rt, table, row)?;
    }
    Ok(())
}

fn run_tables(rt: &impl Print) -> io::Result<()> {
    for table in &tables() {
        run_table(rt, table)?;
    }
    Ok(())
}

/// A read day, the status then, and the formula amount of a residential bill by Schedule 195 after
/// 50.0 degree days more than normal.
#[derive(Clone, Copy)]
struct Season {
    date: &'static str,
    read_day: u32,
    status: Status,
    amount: i64,
}

/// The days on which the winter season begins and ends, and one in it.
const SEASONS: [Season; 5] = [
    Season {
        date: "30 November 2024",
        read_day: 9_100,
        status: Status::In,
        amount: 0,
    },
    Season {
        date: "1 December 2024",
        read_day: 9_101,
        status: Status::In,
        amount: COLDER_AMOUNT,
    },
    Season {
        date: "15 May 2025",
        read_day: 9_266,
        status: Status::In,
        amount: COLDER_AMOUNT,
    },
    Season {
        date: "16 May 2025",
        read_day: 9_267,
        status: Status::In,
        amount: 0,
    },
    Season {
        date: "24 January 2025, status out",
        read_day: JANUARY_24,
        status: Status::Out,
        amount: 0,
    },
];

/// Writes the formula amount of a read day, and whether it is the one that is wanted.
fn run_season(rt: &impl Print, season: Season) -> io::Result<()> {
    let date = season.date;
    match weather_bill(&residential_195(), season.status, season.read_day, -COLDER) {
        Some(amount) => println!(rt;
            "read on {date}: {amount}, {}",
            verdict(amount == season.amount)
        ),
        None => println!(rt; "read on {date}: no bill"),
    }
}

fn run_seasons(rt: &impl Print) -> io::Result<()> {
    println!(rt; "Formula amounts by the read day")?;
    for season in SEASONS {
        run_season(rt, season)?;
    }
    Ok(())
}

/// Writes the formula amount by the station alone, which is refused for the day that it did not read.
fn run_alone(rt: &impl Print, alone: Result<i64, WeatherFault>) -> io::Result<()> {
    match alone {
        Ok(amount) => println!(rt; "alone: {amount}, {}", verdict(false)),
        Err(fault) => {
            let refusal = Refusal::from(fault);
            println!(rt;
                "alone: refused with {}, zone {}, day {}, {}",
                refusal.number,
                refusal.first,
                refusal.second,
                verdict(refusal == UNKNOWN_DAY)
            )
        }
    }
}

/// Writes the formula amount with a stand-in for that day.
fn run_helped(rt: &impl Print, helped: Result<i64, WeatherFault>) -> io::Result<()> {
    match helped {
        Ok(amount) => println!(rt;
            "with a stand-in: {amount}, {}",
            verdict(amount == COLDER_AMOUNT)
        ),
        Err(_) => println!(rt; "with a stand-in: refused, {}", verdict(false)),
    }
}

fn run_gap(rt: &impl Print) -> io::Result<()> {
    println!(rt; "A day that the station did not read")?;
    let Some(bills) = gap_bills(COLDER) else {
        return println!(rt; "no bill");
    };
    run_alone(rt, bills.alone)?;
    run_helped(rt, bills.helped)
}

fn main(rt: HostRuntime) -> io::Result<()> {
    run_tables(&rt)?;
    run_seasons(&rt)?;
    run_gap(&rt)?;
    run_bills(&rt)?;
    let first = DECEMBER_25 as u64;
    let longest = Period::new(first, first + 62).is_some();
    let longer = Period::new(first, first + 63).is_some();
    println!(rt; "a period of 62 days: {}", verdict(longest))?;
    println!(rt; "a period of 63 days: {}", verdict(!longer))
}
