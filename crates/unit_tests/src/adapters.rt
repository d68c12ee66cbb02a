//! Files of the system as a library, and an output of the system as a sink.

ghost use Rattle.std.specs.Prelude.{IsTrue};

use ac_adapters::{FileLibrary, StandardSink};
use ac_outside::{Library, Sink};
use std::cell::Cell;
use std::fmt::Display;
use std::test::Fail;
use std::{fs, io};

// Whether a read of two bytes gives these.
fn gives<L: Library>(library: &mut L, bytes: &[u8]) -> bool
    requires { IsTrue (L.told library.old).is_open }
    ensures { IsTrue (L.told library.new).is_open }
{
    let mut into = [0u8; 2];
    match library.read(&mut into) {
        Ok(count) => &into[..count] == bytes,
        Err(_) => false,
    }
}

// Whether a file of `hello` is read on, also after another could not be opened.
fn goes_on<L: Library>(library: &mut L) -> bool
    requires { IsTrue (L.told library.old).is_open }
{
    let first = gives(library, b"he");
    let refused = library.open_text("").is_err();
    let second = gives(library, b"ll");
    let third = gives(library, b"o");
    first && refused && second && third && gives(library, b"")
}

#[test]
fn a_file_stays_open_where_another_is_refused(rt: HostRuntime) -> Result<(), Fail> {
    fs::write(&rt, "x.ac", "hello")?;
    let mut library = FileLibrary::new(&rt);
    for _ in 0..2 {
        let went_on = library.open_text("x.ac").is_ok() && goes_on(&mut library);
        assert!(rt; went_on);
    }
    fs::remove_file(&rt, "x.ac")?;
    Ok(())
}

// An output of which the first call takes one byte, the second none, the third fails, and the fourth is
// interrupted.
#[derive(Drop)]
struct Script {
    calls: Cell<u64>,
}

impl Print for Script {
    fn print<D: Display + Drop>(&self, _value: D) -> io::Result<()> {
        Ok(())
    }

    fn println<D: Display + Drop>(&self, _value: D) -> io::Result<()> {
        Ok(())
    }

    fn write_all(&self, _bytes: &[u8]) -> io::Result<()> {
        Ok(())
    }

    fn write_some(&self, bytes: &[u8]) -> io::Result<usize> {
        let call = self.calls.get();
        self.calls.set(call.saturating_add(1));
        match call {
            0 => Ok(bytes.len().min(1)),
            1 => Ok(0),
            2 => Err(io::Error::from(io::ErrorKind::BrokenPipe)),
            3 => Err(io::Error::from(io::ErrorKind::Interrupted)),
            _ => Ok(bytes.len()),
        }
    }
}

// Output that takes nothing has failed, as one that says so has; one that was interrupted has not.
#[test]
fn an_output_takes_what_it_can(rt: HostRuntime) -> Result<(), Fail> {
    let script = Script {
        calls: Cell::new(0),
    };
    let mut sink = StandardSink::new(&script);
    for (taken, faults) in [(1, 0), (0, 1), (0, 2), (3, 2)] {
        assert_eq!(rt; sink.write(b"abc").unwrap_or(0), taken);
        assert_eq!(rt; sink.faults(), faults);
    }
    Ok(())
}
