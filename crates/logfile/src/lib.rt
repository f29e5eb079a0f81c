//! What the programs read from outside.
#![tactic(auto)]

ghost use Rattle.std.specs.Prelude.{◌≡◌, IfOk, IfSome, take};

use std::alloc::Global;
use std::fs::File;
use std::io;
use std::io::{ErrorKind, Read};
use std::rt::Files;

/// How many bytes of an input are read at most: one more than is allowed, so that what is too long is refused.
pub const MOST_READ: u64 = 60_001;

/// The bytes of an input: its first 60,001, where it tells what it has left.
pub fn read_input<R: Read + Drop>(heap: Global, input: R) -> io::Result<Vec<u8>>
    ensures { IfOk result (λ v. IfSome (R.remaining input) (λ xs. v.items ≡ take 60001 xs)) }
{
    let mut bytes = Vec::new(heap);
    input.take(MOST_READ).read_to_end(&mut bytes)?;
    Ok(bytes)
}

/// The bytes of `weather.log` in the working folder: none where there is no such file.
/// No contract can speak of what a file has.
pub fn read_log(rt: &(impl Files + AllocGlobal)) -> io::Result<Vec<u8>> {
    match File::open(rt, "weather.log") {
        Ok(file) => read_input(rt.alloc(), file),
        Err(e) if e.kind() == ErrorKind::NotFound => Ok(Vec::new(rt.alloc())),
        Err(e) => Err(e),
    }
}
