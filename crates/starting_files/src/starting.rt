//! Binding files and reading them whole.

ghost use Rattle.std.specs.Prelude.{◌≡◌, ◌≢◌, ◌+◌, ◌<◌, ◌≤◌, All, AllPairs, length, IsTrue, IfOk, IfErr, IfSome, OnOk, None};
ghost use Rattle.std.specs.Str.{IsUtf8};
ghost use Rattle.ac_outside.specs.Disks.{IsFresh};
ghost use Rattle.ac_outside.specs.Told.{AddsName};
ghost use Rattle.starting_files.specs.Starting.{AreStarted, AreStopped, IsLatest, IsNumber, StartHasCause, StartsFile};

use crate::fault::StartFault;
use crate::pieces::read_whole;
use ac_base::{Bytes, List};
use ac_outside::{BindFault, Disk, FILE_BYTES};
use std::alloc::Global;
use std::str;

// Binds the file of this path and reads it whole.
fn start_file<D: Disk>(
    alloc: Global,
    disk: &mut D,
    number: u32,
    path: &[u8],
) -> Result<Bytes, StartFault>
    requires ready { IsTrue (D.told disk.old).is_ready }
    requires next { number ≡ (D.told disk.old).bound }
    requires few { number < 16 }
    requires text { IsUtf8 path.now }
    requires fresh { IfSome (D.told disk.old).held (λ held. IsFresh held path.now) }
    ensures bound { OnOk result ((D.told disk.new).bound ≡ number + 1) }
    ensures ready { OnOk result (IsTrue (D.told disk.new).is_ready) }
    ensures short { IfOk result (λ bytes. length bytes ≤ FILE_BYTES) }
    ensures is_number { IfErr result (IsNumber number) }
    ensures asked { AddsName (D.told disk.old).binds (D.told disk.new).binds path.now }
    ensures told { IfSome (D.told disk.old).held (λ held. StartsFile held (D.told disk.new).held number path.now result) }
    ensures silent { (D.told disk.old).held ≡ None → (D.told disk.new).held ≡ None }
    ensures cause { StartHasCause (D.told disk.old).faults (D.told disk.new).faults result }
    ensures latest { IsLatest (D.told disk.old).faults (D.told disk.new).earlier result }
{
    let Ok(text) = str::from_utf8(path) else {
        unreachable!();
    };
    match disk.bind(number, text) {
        Err(BindFault::Failed) => Err(StartFault::Failed),
        Err(BindFault::NoMemory) => Err(StartFault::NoMemory),
        Ok(len) if len as usize > FILE_BYTES => Err(StartFault::TooLong { file: number }),
        Ok(len) => read_whole(alloc, disk, number, len),
    }
}

/// Binds the files of these paths, at most 16 texts that differ, on a disk that has bound none, and
/// gives the bytes of each. One after the other a file is bound, its length tested, and read whole
/// from its first byte to its last, by a call for each 65,536 bytes, whole or begun.
pub fn start_files<D: Disk>(
    alloc: Global,
    disk: &mut D,
    paths: &[Bytes],
) -> Result<List<Bytes>, StartFault>
    requires ready { IsTrue (D.told disk.old).is_ready }
    requires none { (D.told disk.old).bound ≡ 0 }
    requires few { length paths.now ≤ 16 }
    requires texts { All IsUtf8 paths.now }
    requires differ { AllPairs (λ path other. path ≢ other) paths.now }

    // All files were bound and read, or those before one that was not; and where the disk tells its
    // files, each is given as it was, by just these calls.
    ensures started { IfOk result (λ start. AreStarted paths.now start (D.told disk.old) (D.told disk.new)) }
    ensures stopped { IfErr result (λ fault. AreStopped paths.now fault (D.told disk.old) (D.told disk.new)) }
    ensures silent { (D.told disk.old).held ≡ None → (D.told disk.new).held ≡ None }
{
    let mut start = List::new(alloc);
    for path in paths {
        let number = start.len() as u32;
        let bytes = start_file(alloc, disk, number, path.as_slice())?;
        start.push(bytes)?;
    }
    Ok(start)
}
