//! The files of a trace, and its writes, on a disk.

ghost use Rattle.std.specs.Prelude.{◌≡◌, ◌≢◌, ◌≤◌, All, AllPairs, false, length, true, IfSome, IsNone, IsTrue};
ghost use Rattle.std.specs.Str.{IsUtf8};
ghost use Rattle.ac_replay.specs.Due.{IsFirstOther};
ghost use Rattle.ac_replay.specs.inner.Doing.{IsDoneAgain};
ghost use Rattle.trace_writes.specs.Doing.{CanDo};

use ac_base::Bytes;
use ac_outside::{Disk, Failed};
use starting_files::{StartFault, start_files};
use std::alloc::Global;
use trace_writes::{FileWrite, do_writes};

/// Why the writes of a trace were not all done again.
#[derive(Clone, Copy, Debug, PartialEq, Eq)]
pub enum Halt {
    /// A file was not bound and read whole.
    Stopped(StartFault),
    /// The file of this number, the first to do so, does not hold what is told of it.
    Differs { file: u32 },
    /// A write failed.
    Torn,
}

fn are_same(one: &Bytes, other: &Bytes) -> bool
    ensures same { result ≡ true → one.now ≡ other.now }
    ensures differ { result ≡ false → one.now ≢ other.now }
{
    one.as_slice() == other.as_slice()
}

// The first file that does not hold what is told of it.
fn first_other(start: &[Bytes], told: &[Bytes]) -> Option<u32>
    requires many { length start.now ≡ length told.now }
    requires few { length start.now ≤ 16 }
    ensures none { IsNone result → start.now ≡ told.now }
    ensures some { IfSome result (IsFirstOther start.now told.now) }
{
    for (file, bytes) in start.iter().enumerate() {
        if !are_same(bytes, &told[file]) {
            return Some(file as u32);
        }
    }
    None
}

/// Binds the files of these paths and reads them whole, compares them with what is told of them, and
/// then does the writes. Nothing is written before all of them were compared.
pub fn do_again<D: Disk>(
    alloc: Global,
    paths: &[Bytes],
    told: &[Bytes],
    writes: &[FileWrite],
    disk: &mut D,
) -> Result<(), Halt>
    requires few { length paths.now ≤ 16 }
    requires texts { All IsUtf8 paths.now }
    requires differ { AllPairs (λ path other. path ≢ other) paths.now }
    requires many { length told.now ≡ length paths.now }
    requires can { All (CanDo (length paths.now)) writes.now }
    requires ready { IsTrue (D.told disk.old).is_ready }
    requires none { (D.told disk.old).bound ≡ 0 }
    ensures { IsDoneAgain paths.now told.now writes.now (D.told disk.old) (D.told disk.new) result }
{
    match start_files(alloc, disk, paths) {
        Err(fault) => Err(Halt::Stopped(fault)),
        Ok(start) => {
            if let Some(file) = first_other(start.as_slice(), told) {
                return Err(Halt::Differs { file });
            }
            match do_writes(disk, writes) {
                Err(Failed) => Err(Halt::Torn),
                Ok(()) => Ok(()),
            }
        }
    }
}
