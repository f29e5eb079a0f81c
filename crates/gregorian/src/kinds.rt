//! The types and the limits of the calendar.

/// The last day of the calendar, 31 December 2099.
pub const LAST_DAY: u32 = 36_524;

/// The last calendar place.
pub const LAST_PLACE: u16 = 366;

/// A date by its numbers; one of the calendar has a month from 1 to 12 and a day of that month.
#[derive(Clone, Copy, Debug, PartialEq, Eq)]
pub struct Date {
    pub year: u16,
    pub month: u8,
    pub day: u8,
}

/// Why the calendar refuses a day number or a date.
#[derive(Clone, Copy, Debug, PartialEq, Eq)]
pub enum CalendarFault {
    /// The day lies outside 1 January 2000 to 31 December 2099, or is no date at all.
    NotInCalendar,
}
