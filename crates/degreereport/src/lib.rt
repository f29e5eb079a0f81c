//! The degree days of a bill's days, in words.
#![tactic(auto)]

ghost use Rattle.std.specs.Prelude.{◌≡◌, IfOk, string_bytes};
ghost use Rattle.degreereport.specs.Counts.{answer_of, asked_text, source_text, usage_line};
ghost use Rattle.degreereport.specs.Views.{request_of};

mod counts;
mod figures;
pub mod kinds;
mod reasons;
mod requests;

use counts::Count;
pub use kinds::{Request, Words};
use logreport::refused;
use std::alloc::{AllocError, Global};
use weather::Source;

/// How a request is written, for a person.
pub fn usage(heap: Global) -> Result<String, AllocError>
    ensures { IfOk result (λ s. string_bytes s ≡ usage_line) }
{
    String::from_str(
        heap,
        "usage: warmlog [ZONE EARLIER LATER SETPOINT], as in: warmlog 0 2024-12-25 2025-01-24 590\n",
    )
}

/// The answer to four words by a log, whatever they are.
pub fn asked(heap: Global, bytes: &[u8], words: &Words<'_>) -> Result<String, AllocError>
    ensures { IfOk result (λ s. string_bytes s ≡ asked_text bytes.now (request_of words.now)) }
{
    match words.request() {
        Some(request) => answer(heap, bytes, request),
        None => usage(heap),
    }
}

/// The answer to a request by a log, whatever its bytes.
pub fn answer(heap: Global, bytes: &[u8], request: Request) -> Result<String, AllocError>
    ensures { IfOk result (λ s. string_bytes s ≡ answer_of bytes.now request) }
{
    match weatherlog::open(bytes) {
        Ok(log) => by_source(heap, &log, request),
        Err(fault) => refused(heap, fault),
    }
}

/// The answer to a request by a source of weather.
pub fn by_source<W: Source>(
    heap: Global,
    source: &W,
    request: Request,
) -> Result<String, AllocError>
    ensures { IfOk result (λ s. string_bytes s ≡ source_text request (W.Source.normal source.now request.zone) (W.Source.mean source.now request.zone)) }
{
    match Count::new(source, request) {
        Ok(count) => count.text(heap),
        Err(reason) => format!(in heap; "{reason}\n"),
    }
}
