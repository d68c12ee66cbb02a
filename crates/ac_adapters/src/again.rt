//! Calls of the system, each made again where a signal has interrupted it.

ghost use Rattle.std.specs.Prelude.{◌≢◌, IfErr};
ghost use Rattle.std.specs.Io.{ReadsAtMost, WritesAtMost};
ghost use Rattle.std.specs.Io.KnownBytes.{ReadConsumes};
ghost use Rattle.std.specs.IoError.{error_kind};
ghost use Rattle.std.specs.declared.io.ErrorKind.TheVariants.{Interrupted};

use std::fs::OpenFile;
use std::io;
use std::io::{ErrorKind, Read};
use std::os::unix::fs::FileExt;

// What is said of a call that was interrupted too often.
fn too_often() -> io::Error
    ensures { error_kind result ≢ Interrupted }
{
    io::Error::from(ErrorKind::TimedOut)
}

/// Reads what comes next in a file.
pub fn read<F: Read>(file: &mut F, into: &mut [u8]) -> io::Result<usize>
    ensures bound { ReadsAtMost result into.new }
    ensures bytes { ReadConsumes (F.remaining file.old) (F.remaining file.new) result into.new }
    ensures again { IfErr result (λ e. error_kind e ≢ Interrupted) }
{
    for _ in 0..u64::MAX {
        match file.read(into) {
            Ok(count) => return Ok(count),
            Err(e) if e.kind() == ErrorKind::Interrupted => {}
            Err(e) => return Err(e),
        }
    }
    Err(too_often())
}

/// How many bytes a file has.
pub fn length<F: OpenFile>(file: &F) -> io::Result<u64>
    ensures again { IfErr result (λ e. error_kind e ≢ Interrupted) }
{
    for _ in 0..u64::MAX {
        match file.metadata() {
            Ok(found) => return Ok(found.len()),
            Err(e) if e.kind() == ErrorKind::Interrupted => {}
            Err(e) => return Err(e),
        }
    }
    Err(too_often())
}

/// Reads what stands in a file from a place on.
pub fn read_at<F: FileExt>(file: &F, into: &mut [u8], from: u64) -> io::Result<usize>
    ensures bound { ReadsAtMost result into.new }
    ensures again { IfErr result (λ e. error_kind e ≢ Interrupted) }
{
    for _ in 0..u64::MAX {
        match file.read_at(into, from) {
            Ok(count) => return Ok(count),
            Err(e) if e.kind() == ErrorKind::Interrupted => {}
            Err(e) => return Err(e),
        }
    }
    Err(too_often())
}

/// Writes some of the bytes at a place of a file.
pub fn write_at<F: FileExt>(file: &F, bytes: &[u8], from: u64) -> io::Result<usize>
    ensures bound { WritesAtMost result bytes.now }
    ensures again { IfErr result (λ e. error_kind e ≢ Interrupted) }
{
    for _ in 0..u64::MAX {
        match file.write_at(bytes, from) {
            Ok(count) => return Ok(count),
            Err(e) if e.kind() == ErrorKind::Interrupted => {}
            Err(e) => return Err(e),
        }
    }
    Err(too_often())
}

/// Prints some of the bytes.
pub fn print<R: Print>(to: &R, bytes: &[u8]) -> io::Result<usize>
    ensures bound { WritesAtMost result bytes.now }
    ensures again { IfErr result (λ e. error_kind e ≢ Interrupted) }
{
    for _ in 0..u64::MAX {
        match to.write_some(bytes) {
            Ok(count) => return Ok(count),
            Err(e) if e.kind() == ErrorKind::Interrupted => {}
            Err(e) => return Err(e),
        }
    }
    Err(too_often())
}
