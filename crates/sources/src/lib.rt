//! Weather sources beside the packed log: a station's table, and a source with a stand-in.
#![tactic(auto)]

ghost use Rattle.sources.specs.Tables.{or_else, table_mean, table_normal, temp_at};
ghost use Rattle.std.specs.Prelude.{◌≡◌};

pub mod kinds;

use gregorian::{LAST_DAY, LAST_PLACE};
pub use kinds::{StandIn, StationTable};
use weather::{LAST_ZONE, Source, in_range};

/// The temperature at a place of a table: nothing past its end, or out of range.
fn told_at(table: &[i16], at: usize) -> Option<i16>
    ensures { result ≡ temp_at table.now at }
{
    in_range(i64::from(*table.get(at)?))
}

impl Source for StationTable<'_> {
    ghost mean = { λ s zone day. table_mean s.zone s.first_day s.means.now zone day };

    ghost normal = { λ s zone place. table_normal s.zone s.normals.now zone place };

    fn mean_on(&self, zone: u8, day: u32) -> Option<i16> {
        if zone > LAST_ZONE || zone != self.zone || day > LAST_DAY {
            return None;
        }
        told_at(self.means, day.checked_sub(self.first_day)? as usize)
    }

    fn normal_at(&self, zone: u8, place: u16) -> Option<i16> {
        if zone > LAST_ZONE || zone != self.zone || place > LAST_PLACE {
            return None;
        }
        told_at(self.normals, place.checked_sub(1)? as usize)
    }

    fn show_range(&self) {}
}

impl<F: Source, G: Source> Source for StandIn<F, G> {
    ghost mean = { λ s zone day. or_else (F.Source.mean s.first zone day) (G.Source.mean s.second zone day) };

    ghost normal = { λ s zone place. or_else (F.Source.normal s.first zone place) (G.Source.normal s.second zone place) };

    fn mean_on(&self, zone: u8, day: u32) -> Option<i16> {
        let mean = self.first.mean_on(zone, day);
        mean.or_else(|| self.second.mean_on(zone, day))
    }

    fn normal_at(&self, zone: u8, place: u16) -> Option<i16> {
        let normal = self.first.normal_at(zone, place);
        normal.or_else(|| self.second.normal_at(zone, place))
    }

    fn show_range(&self) {
        self.first.show_range();
        self.second.show_range();
    }
}
