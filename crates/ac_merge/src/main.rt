//! The program `ac_merge`: makes the adapters to the system, calls `merge_main` with the words after the
//! program's name, and ends with its status.
#![tactic(auto)]

use ac_adapters::StandardSink;
use merge_program::merge_main;
use std::process::ExitCode;
use std::{env, io};

// The status where memory is refused before the call.
const NO_MEMORY: u8 = 11;

fn main(rt: HostRuntime) -> ExitCode {
    let mut words = Vec::new(rt.alloc());
    match env::args(&rt) {
        Ok(given) => {
            for word in given.skip(1) {
                if words.push(word).is_err() {
                    return ExitCode::from(NO_MEMORY);
                }
            }
        }
        Err(error) if error.kind() == io::ErrorKind::OutOfMemory => {
            return ExitCode::from(NO_MEMORY);
        }
        // A word that is no text: no words, and so the usage line.
        Err(_) => {}
    }
    let mut sink = StandardSink::new(&rt);
    let merged = merge_main(&rt, rt.alloc(), words.as_slice(), &mut sink);
    ExitCode::from(merged.status.number)
}
