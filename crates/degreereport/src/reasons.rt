//! Why there is no count.
ghost use Rattle.degreereport.specs.Counts.{no_count_text};
ghost use Rattle.degreereport.specs.declared.kinds.NoCount.TheVariants.{Weather};
ghost use Rattle.std.specs.Prelude.{◌≡◌, Some};

use crate::kinds::NoCount;
use logreport::kinds::Refused;
use std::fmt;
use weather::WeatherFault;

impl fmt::Display for NoCount {
    ghost output = { λ x. Some (no_count_text x) };

    fn fmt<W: fmt::Write>(&self, f: &mut fmt::Formatter<W>) -> fmt::Result {
        match *self {
            NoCount::EarlierDate => write!(f, "the earlier read date is not in the calendar"),
            NoCount::LaterDate => write!(f, "the later read date is not in the calendar"),
            NoCount::Days => write!(
                f,
                "the later read date does not come 1 to 62 days after the earlier"
            ),
            NoCount::Weather(fault) => write!(f, "{}", Refused(fault)),
        }
    }
}

impl From<WeatherFault> for NoCount {
    ghost from_gives = { λ fault r. r ≡ Weather fault };

    fn from(fault: WeatherFault) -> NoCount {
        NoCount::Weather(fault)
    }
}
