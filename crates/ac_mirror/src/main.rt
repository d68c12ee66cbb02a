//! The program `ac_mirror`: makes the adapters to the system, calls `mirror_main` with the words after
//! the program's name, and ends with its status.
#![tactic(auto)]

use ac_adapters::{FileDisk, FileLibrary, OpenGate, StandardSink};
use mirror_program::mirror_main;
use std::process::ExitCode;
use std::{env, fs, io};

// The status where memory is refused before the call.
const NO_MEMORY: u8 = 11;

// A file that nobody reads or writes here.
const NOWHERE: &str = "/dev/null";

fn main(rt: HostRuntime) -> ExitCode {
    // Where a standard stream is closed, the next file that is opened takes its place. These do, only to
    // be read, so that no report goes into a file of the program.
    let _places = [
        fs::open(&rt, NOWHERE),
        fs::open(&rt, NOWHERE),
        fs::open(&rt, NOWHERE),
    ];
    let mut words = Vec::new(rt.alloc());
    match env::args(&rt) {
        Ok(given) => {
            for word in given.skip(1) {
                if words.push(word).is_err() {
                    return ExitCode::from(NO_MEMORY);
                }
            }
        }
        Err(error) if error.kind() == io::ErrorKind::OutOfMemory => {
            return ExitCode::from(NO_MEMORY);
        }
        // A word that is no text: no words, and so the usage line.
        Err(_) => {}
    }
    let mut library = FileLibrary::new(&rt);
    let mut sink = StandardSink::new(&rt);
    let (outcome, _) = mirror_main(
        &rt,
        rt.alloc(),
        words.as_slice(),
        &mut library,
        &mut sink,
        FileDisk::new(&rt, rt.alloc()),
        FileDisk::new(&rt, rt.alloc()),
        false,
        &OpenGate::new(),
    );
    ExitCode::from(outcome.status.number)
}
