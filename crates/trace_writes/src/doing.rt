//! Doing writes on a disk.

ghost use Rattle.std.specs.Prelude.{◌≡◌, ◌≤◌, ◌<◌, ◌+◌, [], ◌∷◌, All, IsTrue, OnOk, OnErr, length};
ghost use Rattle.trace_writes.specs.Doing.{CanDo, DidAll, DidSome, FailedAt};

use crate::write::FileWrite;
use ac_outside::{Disk, FILE_BYTES, Failed};

fn do_write<D: Disk>(disk: &mut D, write: &FileWrite) -> Result<(), Failed>
    requires ready { IsTrue (D.told disk.old).is_ready }
    requires can { CanDo (D.told disk.old).bound write.now }
    ensures done { OnOk result (DidAll (write.now ∷ []) (D.told disk.old) (D.told disk.new)) }
    ensures failed { OnErr result (FailedAt [] write.now (D.told disk.old) (D.told disk.new)) }
{
    match disk.write_at(write.file, write.from, write.bytes.as_slice()) {
        Ok(()) => Ok(()),
        Err(_) => Err(Failed),
    }
}

/// Does writes on a disk, one after the other, each by one call, up to the first that fails. It takes
/// no memory.
///
/// Condition: each is of a bound file, and ends within 1,048,576 bytes.
pub fn do_writes<D: Disk>(disk: &mut D, writes: &[FileWrite]) -> Result<(), Failed>
    requires ready { IsTrue (D.told disk.old).is_ready }
    requires can { All (CanDo (D.told disk.old).bound) writes.now }
    ensures done { OnOk result (DidAll writes.now (D.told disk.old) (D.told disk.new)) }
    ensures failed { OnErr result (DidSome writes.now (D.told disk.old) (D.told disk.new)) }
{
    for write in writes {
        do_write(disk, write)?;
    }
    Ok(())
}
