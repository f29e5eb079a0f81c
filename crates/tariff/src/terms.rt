//! What a sheet fixes for a class.
ghost use Rattle.std.specs.Prelude.{◌≤◌};

/// A set point in tenths of a degree Fahrenheit, and a coefficient in hundred-thousandths of a therm per degree day.
#[derive(Clone, Copy, Debug, PartialEq, Eq)]
pub struct Terms {
    pub set_point: u16,
    pub coefficient: u32,
    ghost point_within: { (400 ≤ set_point) × (set_point ≤ 700) },
    ghost coefficient_within: { (1 ≤ coefficient) × (coefficient ≤ 999999) },
}
