//! The tables of bill effects, as the schedules print them.
use tariff::{Class, Schedule195, Schedule240, Sheet, Terms};

/// A row: the variance in degree days, the equivalent therms in ten-thousandths, and the adjustment in cents.
#[derive(Clone, Copy, PartialEq, Eq)]
pub struct Row {
    pub variance: u16,
    pub therms: u64,
    pub cents: u64,
}

/// A table: what its schedule fixes for its class, the margin in points per therm, and its rows.
#[derive(Clone, Copy)]
pub struct Table {
    pub title: &'static str,
    pub terms: Terms,
    pub margin: u64,
    pub rows: [Row; 11],
}

/// A row as it is printed.
macro_rules! row {
    ($variance:expr, $therms:expr, $cents:expr) => {
        Row {
            variance: $variance,
            therms: $therms,
            cents: $cents,
        }
    };
}

/// The residential margin of Schedule 195, in points per therm.
pub const MARGIN_195: u64 = 80_858;

/// Schedule 195, residential.
const RESIDENTIAL_195: [Row; 11] = [
    row!(1, 1_553, 13),
    row!(5, 7_767, 63),
    row!(10, 15_533, 126),
    row!(15, 23_300, 188),
    row!(20, 31_066, 251),
    row!(25, 38_833, 314),
    row!(30, 46_599, 377),
    row!(35, 54_366, 440),
    row!(40, 62_132, 502),
    row!(45, 69_899, 565),
    row!(50, 77_665, 628),
];

/// Schedule 195, commercial.
const COMMERCIAL_195: [Row; 11] = [
    row!(1, 6_500, 46),
    row!(5, 32_502, 230),
    row!(10, 65_004, 460),
    row!(15, 97_506, 691),
    row!(20, 130_008, 921),
    row!(25, 162_510, 1_151),
    row!(30, 195_012, 1_381),
    row!(35, 227_514, 1_611),
    row!(40, 260_016, 1_842),
    row!(45, 292_518, 2_072),
    row!(50, 325_020, 2_302),
];

/// Schedule 240, residential.
const RESIDENTIAL_240: [Row; 11] = [
    row!(1, 1_903, 7),
    row!(5, 9_515, 35),
    row!(10, 19_030, 69),
    row!(15, 28_545, 104),
    row!(20, 38_060, 138),
    row!(25, 47_575, 173),
    row!(30, 57_090, 207),
    row!(35, 66_605, 242),
    row!(40, 76_120, 277),
    row!(45, 85_635, 311),
    row!(50, 95_150, 346),
];

/// Schedule 240, commercial.
const COMMERCIAL_240: [Row; 11] = [
    row!(1, 7_616, 31),
    row!(5, 38_080, 156),
    row!(10, 76_160, 313),
    row!(15, 114_240, 469),
    row!(20, 152_320, 626),
    row!(25, 190_400, 782),
    row!(30, 228_480, 939),
    row!(35, 266_560, 1_095),
    row!(40, 304_640, 1_252),
    row!(45, 342_720, 1_408),
    row!(50, 380_800, 1_565),
];

/// The residential table of Schedule 195.
pub fn residential_195() -> Table {
    Table {
        title: "Schedule 195, residential",
        terms: <Schedule195 as Sheet>::terms(Class::Residential),
        margin: MARGIN_195,
        rows: RESIDENTIAL_195,
    }
}

/// All tables.
pub fn tables() -> [Table; 4] {
    [
        residential_195(),
        Table {
            title: "Schedule 195, commercial",
            terms: <Schedule195 as Sheet>::terms(Class::Commercial),
            margin: 70_824,
            rows: COMMERCIAL_195,
        },
        Table {
            title: "Schedule 240, residential",
            terms: <Schedule240 as Sheet>::terms(Class::Residential),
            margin: 36_340,
            rows: RESIDENTIAL_240,
        },
        Table {
            title: "Schedule 240, commercial",
            terms: <Schedule240 as Sheet>::terms(Class::Commercial),
            margin: 41_086,
            rows: COMMERCIAL_240,
        },
    ]
}
