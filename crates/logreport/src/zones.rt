//! How a zone of a log is shown.
ghost use Rattle.logformat.specs.Reading.{zone_by};
ghost use Rattle.logreport.specs.Report.{zone_lines, zone_of};
ghost use Rattle.std.specs.Prelude.{◌≡◌, Some};

use crate::kinds::{Day, Days, SeriesReport, Timeline, ZoneReport};
use logformat::ZonePlaces;
use logseries::PackedSeries;
use logsummary::summary;
use std::fmt;

impl fmt::Display for ZoneReport {
    ghost output = { λ x. Some (zone_lines x) };

    #[tactic(auto, unfolding(crate::specs::Report::zone_lines))]
    fn fmt<W: fmt::Write>(&self, f: &mut fmt::Formatter<W>) -> fmt::Result {
        let means = SeriesReport {
            timeline: Timeline::Means { first: self.first },
            summary: self.means,
        };
        let normals = SeriesReport {
            timeline: Timeline::Normals,
            summary: self.normals,
        };
        if self.days == 0 {
            return write!(f, "zone {}: no days\n{means}{normals}", self.number);
        }
        let first = Day::Dated(u64::from(self.first));
        let last = Day::Dated(u64::from(self.first) + u64::from(self.days) - 1);
        write!(
            f,
            "zone {}: {}, {first} to {last}\n{means}{normals}",
            self.number,
            Days(self.days)
        )
    }
}

/// The report of the zone whose numbers stand at places of a log.
pub fn zone_report(bytes: &[u8], number: usize, places: ZonePlaces) -> ZoneReport
    ensures { result ≡ zone_of number (zone_by bytes.now places) }
{
    let means = summary(PackedSeries::means(bytes, places.count, places.means));
    let normals = summary(PackedSeries::normals(bytes, places.normals));
    ZoneReport {
        number,
        first: places.first,
        days: means.known + means.unknown,
        means,
        normals,
    }
}
