//! How degree days are shown.
ghost use Rattle.degreereport.specs.Counts.{day_figures, figures_text};
ghost use Rattle.std.specs.Prelude.{◌≡◌, Some};

use crate::kinds::Figures;
use degreedays::DayDegrees;
use logreport::kinds::{SignedTenths, Tenths};
use std::fmt;

impl From<DayDegrees> for Figures {
    ghost from_gives = { λ degrees r. r ≡ day_figures degrees };

    fn from(degrees: DayDegrees) -> Figures {
        let normal = i64::from(degrees.normal);
        let actual = i64::from(degrees.actual);
        Figures {
            normal,
            actual,
            difference: normal - actual,
        }
    }
}

impl fmt::Display for Figures {
    ghost output = { λ x. Some (figures_text x) };

    fn fmt<W: fmt::Write>(&self, f: &mut fmt::Formatter<W>) -> fmt::Result {
        let normal = Tenths(self.normal.unsigned_abs());
        let actual = Tenths(self.actual.unsigned_abs());
        let difference = SignedTenths(self.difference);
        write!(
            f,
            "normal {normal}, actual {actual}, difference {difference}"
        )
    }
}
