//! Tests of the calendar on days that another implementation reckoned.
#![tactic(auto)]

#[cfg(test)]
mod tests {
    use calendar::{calendar_place, date_of, day_number, effective_day, in_season};
    use gregorian::{CalendarFault, Date};
    use std::test::Fail;

    // A day number, its year, month and day, its calendar place, and whether it lies in the season.
    #[derive(Clone, Copy)]
    struct Day(u32, u16, u8, u8, u16, bool);

    const DAYS: [Day; 32] = [
        Day(0, 2000, 1, 1, 1, true),
        Day(58, 2000, 2, 28, 59, true),
        Day(59, 2000, 2, 29, 60, true),
        Day(60, 2000, 3, 1, 61, true),
        Day(135, 2000, 5, 15, 136, true),
        Day(136, 2000, 5, 16, 137, false),
        Day(334, 2000, 11, 30, 335, false),
        Day(335, 2000, 12, 1, 336, true),
        Day(365, 2000, 12, 31, 366, true),
        Day(366, 2001, 1, 1, 1, true),
        Day(789, 2002, 2, 28, 59, true),
        Day(1153, 2003, 2, 27, 58, true),
        Day(1460, 2003, 12, 31, 366, true),
        Day(1461, 2004, 1, 1, 1, true),
        Day(3164, 2008, 8, 30, 243, false),
        Day(4747, 2012, 12, 30, 365, true),
        Day(9039, 2024, 9, 30, 274, false),
        Day(9040, 2024, 10, 1, 275, false),
        Day(9101, 2024, 12, 1, 336, true),
        Day(9126, 2024, 12, 26, 361, true),
        Day(9155, 2025, 1, 24, 24, true),
        Day(9266, 2025, 5, 15, 136, true),
        Day(9886, 2027, 1, 25, 25, true),
        Day(18262, 2049, 12, 31, 366, true),
        Day(21222, 2058, 2, 7, 38, true),
        Day(21914, 2059, 12, 31, 366, true),
        Day(25875, 2070, 11, 4, 309, false),
        Day(29280, 2080, 3, 1, 61, true),
        Day(35119, 2096, 2, 25, 56, true),
        Day(36432, 2099, 9, 30, 274, false),
        Day(36433, 2099, 10, 1, 275, false),
        Day(36524, 2099, 12, 31, 366, true),
    ];

    #[test]
    fn days(rt: HostRuntime) -> Result<(), Fail> {
        for Day(number, year, month, day, place, season) in DAYS {
            assert_eq!(rt; date_of(number as u64)?, Date { year, month, day });
            assert_eq!(rt; day_number(year as u64, month as u64, day as u64)?, number);
            assert_eq!(rt; calendar_place(number as u64)?, place);
            assert_eq!(rt; in_season(number as u64)?, season);
        }
        Ok(())
    }

    #[test]
    fn dates_outside_the_calendar(rt: HostRuntime) {
        let none = CalendarFault::NotInCalendar;
        assert_eq!(rt; date_of(36_525), Err(none));
        assert_eq!(rt; day_number(1999, 12, 31), Err(none));
        assert_eq!(rt; day_number(2100, 1, 1), Err(none));
        assert_eq!(rt; day_number(2023, 2, 29), Err(none));
        assert_eq!(rt; day_number(2024, 2, 30), Err(none));
        assert_eq!(rt; day_number(2024, 13, 1), Err(none));
        assert_eq!(rt; day_number(2024, 6, 31), Err(none));
        assert_eq!(rt; day_number(2024, 6, 0), Err(none));
    }

    #[test]
    fn effective_days(rt: HostRuntime) -> Result<(), Fail> {
        assert_eq!(rt; effective_day(9039)?, 9101);
        assert_eq!(rt; effective_day(9040)?, 9466);
        assert_eq!(rt; effective_day(36_432)?, 36_494);
        assert_eq!(rt; effective_day(36_433), Err(CalendarFault::NotInCalendar));
        Ok(())
    }
}
