//! What a refusal says, whichever layer it arises in.
#![tactic(auto)]

ghost use Rattle.refusal.specs.Refusals.{layer_name};
ghost use Rattle.std.specs.Prelude.{◌≡◌, Some};

pub mod kinds;

pub use kinds::{Layer, Refusal};
use std::fmt;

impl Layer {
    /// The layer's name, as messages write it.
    pub fn name(self) -> &'static str
        ensures { result.now ≡ layer_name self }
    {
        match self {
            Layer::Weather => "weather",
            Layer::Book => "book",
            Layer::Run => "run",
        }
    }
}

impl fmt::Display for Layer {
    ghost output = { λ x. Some (layer_name x) };

    fn fmt<W: fmt::Write>(&self, f: &mut fmt::Formatter<W>) -> fmt::Result {
        f.write_str(self.name())
    }
}
