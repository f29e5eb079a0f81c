//! The types that every layer's refusals share.

/// The layer where a refusal arises, shown by its name.
#[derive(Clone, Copy, Debug, PartialEq, Eq)]
pub enum Layer {
    Weather,
    Book,
    Run,
}

/// A refusal: its number, its layer, and two places, 0 where nothing is named.
/// The number is what a listing prints; the kinds behind it are the faults of the layers.
#[derive(Clone, Copy, Debug, PartialEq, Eq)]
pub struct Refusal {
    pub number: u8,
    pub layer: Layer,
    pub first: u64,
    pub second: u64,
}
