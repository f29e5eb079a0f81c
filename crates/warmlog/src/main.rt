//! The program: reads `weather.log` in its working folder, and writes a report of what it says;
//! or, given a zone, two read dates and a set point, the degree days of that bill.
#![tactic(auto)]

use degreereport::Words;
use logfile::read_log;
use std::alloc::{AllocError, Global};
use std::io::Write;
use std::{env, io};

/// What is written for the words of the command line, of which the first is the program's name.
fn written(heap: Global, log: &[u8], words: &[String]) -> Result<String, AllocError> {
    match words {
        [] | [_] => logreport::report(heap, log),
        [_, zone, earlier, later, set_point] => {
            let words = Words {
                zone: zone.as_bytes(),
                earlier: earlier.as_bytes(),
                later: later.as_bytes(),
                set_point: set_point.as_bytes(),
            };
            degreereport::asked(heap, log, &words)
        }
        _ => degreereport::usage(heap),
    }
}

fn main(rt: HostRuntime) -> io::Result<()> {
    let words: Vec<String> = env::args(&rt)?.collect(rt.alloc())?;
    let log = read_log(&rt)?;
    let text = written(rt.alloc(), log.as_slice(), words.as_slice())?;
    rt.stdout().write_all(text.as_bytes())
}
