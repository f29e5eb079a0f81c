//! Tariff sheets: what a schedule fixes for each class, and the most that it lets a bill rise and fall.
#![tactic(auto)]

ghost use Rattle.std.specs.Prelude.{◌≡◌, ℕ, ◌≤◌};
ghost use Rattle.tariff.specs.Classes.{by_class};
ghost use Rattle.tariff.specs.Schedules.{usage};
ghost use Rattle.tariff.specs.declared.kinds.Sale.{Sale};
ghost use Rattle.tariff.specs.declared.terms.Terms.{Terms};

pub mod kinds;
mod schedules;
pub mod terms;

pub use kinds::{Class, Sale, Status, UnknownCode};
pub use schedules::{Schedule195, Schedule240};
pub use terms::Terms;

/// A tariff sheet: the schedule that a distributor bills by.
///
/// It fixes a set point and a coefficient for each class. Given a sale (class, therms, billing rate
/// and floor, a gas cost per therm) it answers, in points, the most that a bill may rise and fall.
/// These limits never exceed the usage portion, therms times billing rate.
pub trait Sheet {
    const RESIDENTIAL: Terms;

    const COMMERCIAL: Terms;

    ghost RESIDENTIAL: { Terms };

    ghost COMMERCIAL: { Terms };

    ghost rise: { Self → Sale → ℕ };

    ghost fall: { Self → Sale → ℕ };

    /// What the sheet fixes for a class.
    final fn terms(class: Class) -> Terms
        ensures { result ≡ by_class RESIDENTIAL COMMERCIAL class }
    {
        match class {
            Class::Residential => Self::RESIDENTIAL,
            Class::Commercial => Self::COMMERCIAL,
        }
    }

    /// The most that a bill may rise.
    fn most_up(&self, sale: Sale) -> u64
        ensures { result ≡ rise self.now sale };

    /// The most that a bill may fall.
    fn most_down(&self, sale: Sale) -> u64
        ensures { result ≡ fall self.now sale };

    ghost rise_within: { (s : Self) (sale : Sale) → rise s sale ≤ usage sale };

    ghost fall_within: { (s : Self) (sale : Sale) → fall s sale ≤ usage sale };
}
