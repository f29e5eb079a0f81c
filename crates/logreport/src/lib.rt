//! What a packed weather log says, in words.
#![tactic(auto)]

ghost use Rattle.logreport.specs.Report.{refused_line, report_of, reported};
ghost use Rattle.std.specs.Prelude.{◌≡◌, length, IfOk, Ok, string_bytes};
ghost use Rattle.weatherlog.specs.Logs.{zones_of};

pub mod kinds;
mod refusals;
mod series;
pub mod words;
mod zones;

use kinds::Refused;
use std::alloc::{AllocError, Global};
use weather::WeatherFault;
use weatherlog::Log;
use zones::zone_report;

/// The report of a log, whatever its bytes.
pub fn report(heap: Global, bytes: &[u8]) -> Result<String, AllocError>
    ensures { IfOk result (λ s. string_bytes s ≡ report_of bytes.now) }
{
    match weatherlog::open(bytes) {
        Ok(log) => accepted(heap, &log),
        Err(fault) => refused(heap, fault),
    }
}

/// The report of a log that is accepted.
fn accepted(heap: Global, log: &Log<'_>) -> Result<String, AllocError>
    ensures { IfOk result (λ s. string_bytes s ≡ reported (length log.now.bytes.now) (Ok (zones_of log.now))) }
{
    let zones = log.layout.zones();
    if zones.is_empty() {
        return String::from_str(heap, "weather.log: empty, nothing is known\n");
    }
    let size = log.bytes.len();
    let listed = zones.len();
    let mut out = format!(in heap; "weather.log: {size} bytes, zones listed: {listed}\n")?;
    for (number, places) in zones.iter().enumerate() {
        let zone = zone_report(log.bytes, number, *places);
        write!(out, "{zone}")?;
    }
    Ok(out)
}

/// The line of a log that is refused.
pub fn refused(heap: Global, fault: WeatherFault) -> Result<String, AllocError>
    ensures { IfOk result (λ s. string_bytes s ≡ refused_line fault) }
{
    format!(in heap; "{}\n", Refused(fault))
}
