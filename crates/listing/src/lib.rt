//! The listing: how its lines are written.
#![tactic(auto)]

ghost use Rattle.listing.specs.Lines.{appended, header_bytes, line_bytes};
ghost use Rattle.std.specs.Prelude.{◌≡◌, Some, string_bytes};

pub mod kinds;

pub use kinds::Line;
use std::alloc::{AllocError, Global};
use std::fmt;

/// Appends the first line of every listing; without memory for it, nothing.
pub fn header(out: &mut String) -> Result<(), AllocError>
    ensures { string_bytes out.new ≡ appended result (string_bytes out.old) header_bytes }
{
    out.push_str("WARM 195\n")
}

/// Appends a line; without memory for all of it, nothing.
pub fn line(heap: Global, out: &mut String, line: &Line) -> Result<(), AllocError>
    ensures { string_bytes out.new ≡ appended result (string_bytes out.old) (line_bytes line.now) }
{
    let text = format!(in heap; "{line}")?;
    out.push_str(text.as_str())
}

impl fmt::Display for Line {
    ghost output = { λ x. Some (line_bytes x) };

    fn fmt<W: fmt::Write>(&self, f: &mut fmt::Formatter<W>) -> fmt::Result {
        match self {
            Line::Refused { order, refusal } => {
                writeln!(
                    f,
                    "? {order} {} {} {}",
                    refusal.number, refusal.first, refusal.second
                )
            }
        }
    }
}
