//! How a series of a zone is shown.
ghost use Rattle.logreport.specs.Report.{day_at, extreme_lines, gap_line, series_lines, series_name};
ghost use Rattle.std.specs.Prelude.{◌≡◌, Some};

use crate::kinds::{Day, Days, Degrees, Extremes, LongestGap, SeriesReport, Timeline};
use std::fmt;

impl Timeline {
    /// The day that a place of the series stands for.
    fn day_at(self, place: u32) -> Day
        ensures { result ≡ day_at self place }
    {
        match self {
            Timeline::Means { first } => Day::Dated(u64::from(first) + u64::from(place)),
            Timeline::Normals => Day::Yearly(u64::from(place)),
        }
    }
}

impl fmt::Display for Timeline {
    ghost output = { λ x. Some (series_name x) };

    fn fmt<W: fmt::Write>(&self, f: &mut fmt::Formatter<W>) -> fmt::Result {
        match self {
            Timeline::Means { .. } => write!(f, "means"),
            Timeline::Normals => write!(f, "normals"),
        }
    }
}

impl fmt::Display for Extremes {
    ghost output = { λ x. Some (extreme_lines x.timeline x.ends) };

    fn fmt<W: fmt::Write>(&self, f: &mut fmt::Formatter<W>) -> fmt::Result {
        let Extremes { timeline, ends } = self;
        match ends {
            None => writeln!(f, "    nothing known"),
            Some((coldest, warmest)) => writeln!(
                f,
                "    coldest {} on {}\n    warmest {} on {}",
                Degrees(coldest.tenths),
                timeline.day_at(coldest.at),
                Degrees(warmest.tenths),
                timeline.day_at(warmest.at)
            ),
        }
    }
}

impl fmt::Display for LongestGap {
    ghost output = { λ x. Some (gap_line x.timeline x.gap) };

    fn fmt<W: fmt::Write>(&self, f: &mut fmt::Formatter<W>) -> fmt::Result {
        if self.gap.length == 0 {
            return writeln!(f, "    longest gap: none");
        }
        let days = Days(self.gap.length);
        let start = self.timeline.day_at(self.gap.at);
        writeln!(f, "    longest gap: {days} from {start}")
    }
}

impl fmt::Display for SeriesReport {
    ghost output = { λ x. Some (series_lines x.timeline x.summary) };

    #[tactic(auto, unfolding(crate::specs::Report::series_lines))]
    fn fmt<W: fmt::Write>(&self, f: &mut fmt::Formatter<W>) -> fmt::Result {
        let SeriesReport { timeline, summary } = *self;
        let extremes = Extremes {
            timeline,
            ends: summary.coldest.zip(summary.warmest),
        };
        let longest = LongestGap {
            timeline,
            gap: summary.longest,
        };
        write!(
            f,
            "  {timeline}: {} known, {} unknown, {} below 0 °F\n{extremes}{longest}",
            summary.known, summary.unknown, summary.subzero
        )
    }
}
