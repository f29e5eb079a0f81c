//! The kinds of weather sources.

/// One zone's means by day from a first day, and its normals by calendar place from place 1.
#[derive(Clone, Copy, Debug, PartialEq, Eq)]
pub struct StationTable<'a> {
    pub zone: u8,
    pub first_day: u32,
    pub means: &'a [i16],
    pub normals: &'a [i16],
}

/// Two sources, of which the second stands in where the first knows nothing.
#[derive(Clone, Copy, Debug, PartialEq, Eq, Drop)]
pub struct StandIn<F, G> {
    pub first: F,
    pub second: G,
}
