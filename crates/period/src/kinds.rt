//! The days of a bill.
ghost use Rattle.period.specs.Periods.{Allowed};

/// The two read days of a bill: the last one before it, which it does not cover, and its own.
#[derive(Clone, Copy, Debug, PartialEq, Eq)]
pub struct Period {
    pub last_read: u32,
    pub read_day: u32,
    ghost within: { Allowed last_read read_day },
}

/// The days of a period on either side of a change of the margin.
#[derive(Clone, Copy, Debug, PartialEq, Eq)]
pub struct Split {
    pub before: u32,
    pub from: u32,
}
