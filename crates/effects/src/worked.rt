//! The worked bills, as the schedules print them.
use crate::bills::bill;
use crate::tables::MARGIN_195;
use crate::verdict;
use amounts::{Amounts, Figures};
use std::io;
use tariff::{Schedule195, Schedule240, Sheet};

/// What a schedule prints of a worked bill.
#[derive(Clone, Copy, PartialEq, Eq)]
struct Printed {
    applied: i64,
    rest: i64,
    cents: u64,
}

impl From<Amounts> for Printed {
    fn from(amounts: Amounts) -> Self {
        Printed {
            applied: amounts.applied,
            rest: amounts.rest,
            cents: amounts.cents,
        }
    }
}

/// A worked bill: its variance in tenths of a degree day, its figures, and what is printed of it.
#[derive(Clone, Copy)]
struct Worked {
    variance: i32,
    figures: Figures,
    printed: Printed,
}

/// The worked bill of Schedule 195.
const BILL_195: Worked = Worked {
    variance: -500,
    figures: Figures {
        therms: 129,
        rate: RATE_195,
        charge: 1_000_000,
        floor: 0,
        earlier_margin: 0,
        change_day: 0,
        later_margin: MARGIN_195,
    },
    printed: Printed {
        applied: -627_972,
        rest: -12,
        cents: 17_543,
    },
};

/// The worked bill of Schedule 240.
const BILL_240: Worked = Worked {
    variance: -500,
    figures: Figures {
        therms: 129,
        rate: 109_522,
        charge: 1_200_000,
        floor: 80_000,
        earlier_margin: 0,
        change_day: 0,
        later_margin: 36_119,
    },
    printed: Printed {
        applied: -343_656,
        rest: -16,
        cents: 14_985,
    },
};

/// The rate of Schedule 195's worked bills, in points per therm.
const RATE_195: u64 = 133_108;

/// Therms, and the amounts of a bill of Schedule 195 after 200.0 degree days less than normal.
const WARM_BILLS: [(u64, Printed); 3] = [
    (
        100,
        Printed {
            applied: 1_200_000,
            rest: 1_311_935,
            cents: 14_511,
        },
    ),
    (
        20,
        Printed {
            applied: 665_540,
            rest: 1_846_395,
            cents: 3_328,
        },
    ),
    (
        0,
        Printed {
            applied: 0,
            rest: 2_511_935,
            cents: 0,
        },
    ),
];

/// A bill of Schedule 195 after 200.0 degree days less than normal.
fn warm_bill(therms: u64, printed: Printed) -> Worked {
    Worked {
        variance: 2_000,
        figures: Figures {
            therms,
            rate: RATE_195,
            later_margin: MARGIN_195,
            ..Figures::default()
        },
        printed,
    }
}

/// Writes the amounts of a worked bill, and whether they are printed so.
fn run_bill<S: Sheet>(rt: &impl Print, sheet: &S, worked: Worked) -> io::Result<()> {
    let therms = worked.figures.therms;
    match bill(sheet, worked.variance, worked.figures).map(Printed::from) {
        Some(bill) => println!(rt;
            "{therms} therms: applied {}, rest {}, {} cents, {}",
            bill.applied,
            bill.rest,
            bill.cents,
            verdict(bill == worked.printed)
        ),
        None => println!(rt; "{therms} therms: no bill"),
    }
}

/// Runs the worked bills.
pub fn run_bills(rt: &impl Print) -> io::Result<()> {
    println!(rt; "Worked bills")?;
    run_bill(rt, &Schedule195, BILL_195)?;
    run_bill(rt, &Schedule240, BILL_240)?;
    for (therms, printed) in WARM_BILLS {
        run_bill(rt, &Schedule195, warm_bill(therms, printed))?;
    }
    Ok(())
}
