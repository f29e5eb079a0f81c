//! The calendar's types, and the theorem that day numbers and dates correspond one to one.
#![tactic(auto)]

ghost use Rattle.gregorian.specs.Calendar.{Examples, NothingLost};
ghost use Rattle.gregorian.specs.Faults.{refusal_of};
ghost use Rattle.std.specs.Prelude.{◌≡◌};

use refusal::{Layer, Refusal};

pub mod kinds;

pub use kinds::{CalendarFault, Date, LAST_DAY, LAST_PLACE};

impl From<CalendarFault> for Refusal {
    ghost from_gives = { λ e r. r ≡ refusal_of e };

    fn from(fault: CalendarFault) -> Refusal {
        match fault {
            CalendarFault::NotInCalendar => Refusal {
                number: 2,
                layer: Layer::Book,
                first: 0,
                second: 0,
            },
        }
    }
}

/// Computes nothing: its contract states the theorem on the calendar, and worked examples.
pub fn nothing_is_lost()
    ensures lossless { NothingLost }
    ensures examples { Examples }
{}
