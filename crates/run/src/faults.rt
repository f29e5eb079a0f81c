//! The refusals of the run layer, and how faults of the layers below become its own.
ghost use Rattle.listing.specs.declared.kinds.Line.TheVariants.{Refused};
ghost use Rattle.run.specs.Refusals.{refusal_of};
ghost use Rattle.run.specs.declared.kinds.RunFault.TheVariants.{BadNumber, Weather};
ghost use Rattle.std.specs.Prelude.{◌≡◌};

use crate::kinds::{RunFault, Stop};
use listing::Line;
use packed::NumberFault;
use refusal::{Layer, Refusal};
use weather::WeatherFault;

impl From<RunFault> for Refusal {
    ghost from_gives = { λ e r. r ≡ refusal_of e };

    fn from(fault: RunFault) -> Refusal {
        let (number, first) = match fault {
            RunFault::Weather(fault) => return fault.into(),
            RunFault::OrdersTooLong => (20, 0),
            RunFault::BadNumber { place } => (21, place as u64),
            RunFault::UnknownOrder { place } => (22, place as u64),
        };
        Refusal {
            number,
            layer: Layer::Run,
            first,
            second: 0,
        }
    }
}

impl From<NumberFault> for RunFault {
    ghost from_gives = { λ e r. r ≡ BadNumber e.place };

    fn from(fault: NumberFault) -> RunFault {
        RunFault::BadNumber { place: fault.place }
    }
}

impl From<WeatherFault> for RunFault {
    ghost from_gives = { λ e r. r ≡ Weather e };

    fn from(fault: WeatherFault) -> RunFault {
        RunFault::Weather(fault)
    }
}

impl From<WeatherFault> for Stop {
    ghost from_gives = { λ e r. r ≡ record { order = 0; fault = Weather e } };

    fn from(fault: WeatherFault) -> Stop {
        Stop {
            order: 0,
            fault: fault.into(),
        }
    }
}

/// The line that tells where and why a run stops.
impl From<Stop> for Line {
    ghost from_gives = { λ s r. r ≡ Refused s.order (refusal_of s.fault) };

    fn from(stop: Stop) -> Line {
        Line::Refused {
            order: stop.order,
            refusal: stop.fault.into(),
        }
    }
}
