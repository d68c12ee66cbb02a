//! One device of a mirror.

ghost use Rattle.std.specs.Prelude.{◌≡◌, ◌+◌, ◌<◌, ◌≤◌, length, replicate, is_some, IsTrue, IfSome, true};
ghost use Rattle.std.specs.Io.{ReadsAtMost};
ghost use Rattle.ac_outside.specs.Disks.{IsFresh};
ghost use Rattle.ac_mirror_disk.specs.Calls.{HasBound, HasRead, HasWritten};
ghost use Rattle.ac_mirror_disk.specs.Sides.{SideBinds, SideReads, SideWrites, grown, lens_bound, lens_written};

use ac_outside::{BindFault, Disk, FILE_BYTES, Failed, Torn};

/// A device, the lengths of its bound files, and whether it is in use.
#[derive(Drop)]
pub struct Side<D> {
    pub disk: D,
    /// The length of each bound file at its number, as its bind gave it and the writes have changed it.
    pub lens: [u32; 16],
    pub in_use: bool,
}

// The length of a file of which so many bytes were written at a place.
fn grown(len: u32, from: u32, count: u32) -> u32
    requires { from + count ≤ FILE_BYTES }
    ensures { result ≡ grown len from count }
{
    if count == 0 {
        len
    } else {
        len.max(from + count)
    }
}

impl<D: Disk> Side<D> {
    /// A device that is in use and has bound no file.
    pub(crate) fn new(disk: D) -> Side<D>
        ensures disk { result.disk ≡ disk }
        ensures lens { result.lens ≡ replicate 16 0 }
        ensures in_use { result.in_use ≡ true }
    {
        Side {
            disk,
            lens: [0; 16],
            in_use: true,
        }
    }

    // Binds the next file.
    pub(crate) fn bind_next(&mut self, path: &str) -> Result<u32, BindFault>
        requires ready { IsTrue (D.told self.old.disk).is_ready }
        requires few { (D.told self.old.disk).bound < 16 }
        requires fresh { IfSome (D.told self.old.disk).held (λ held. IsFresh held path.now) }
        ensures bound { HasBound (D.told self.old.disk) (D.told self.new.disk) path.now result }
        ensures lens { self.new.lens ≡ lens_bound self.old.lens (D.told self.old.disk).bound result }
        ensures in_use { self.new.in_use ≡ self.old.in_use }
    {
        let file = self.disk.bound();
        let bound = self.disk.bind(file, path);
        if let Ok(len) = bound {
            self.lens[file as usize] = len;
        }
        bound
    }

    /// Binds the next file, where the device is in use.
    pub(crate) fn bind(&mut self, path: &str) -> Option<Result<u32, BindFault>>
        requires ready { IsTrue self.old.in_use → IsTrue (D.told self.old.disk).is_ready }
        requires few { IsTrue self.old.in_use → (D.told self.old.disk).bound < 16 }
        requires fresh { IsTrue self.old.in_use → IfSome (D.told self.old.disk).held (λ held. IsFresh held path.now) }
        ensures binds { SideBinds D.told self.old self.new path.now result }
        ensures called { is_some result ≡ self.old.in_use }
        ensures in_use { self.new.in_use ≡ self.old.in_use }
    {
        if self.in_use {
            Some(self.bind_next(path))
        } else {
            None
        }
    }

    /// Reads from a bound file, where the device is in use.
    pub(crate) fn read(
        &mut self,
        file: u32,
        from: u32,
        into: &mut [u8],
    ) -> Option<Result<usize, Failed>>
        requires ready { IsTrue self.old.in_use → IsTrue (D.told self.old.disk).is_ready }
        requires named { IsTrue self.old.in_use → file < (D.told self.old.disk).bound }
        requires within { from + length into.old ≤ FILE_BYTES }
        ensures reads { SideReads D.told self.old self.new file from (length into.old) into.new result }
        ensures most { IfSome result (λ read. ReadsAtMost read into.new) }
        ensures called { is_some result ≡ self.old.in_use }
        ensures in_use { self.new.in_use ≡ self.old.in_use }
    {
        if self.in_use {
            Some(self.disk.read_at(file, from, into))
        } else {
            None
        }
    }

    // Writes to a bound file.
    pub(crate) fn write_now(&mut self, file: u32, from: u32, bytes: &[u8]) -> Result<(), Torn>
        requires ready { IsTrue (D.told self.old.disk).is_ready }
        requires named { file < (D.told self.old.disk).bound }
        requires few { (D.told self.old.disk).bound ≤ 16 }
        requires within { from + length bytes.now ≤ FILE_BYTES }
        ensures written { HasWritten (D.told self.old.disk) (D.told self.new.disk) file from bytes.now result }
        ensures lens { self.new.lens ≡ lens_written self.old.lens file from bytes.now result }
        ensures in_use { self.new.in_use ≡ self.old.in_use }
    {
        let written = self.disk.write_at(file, from, bytes);
        let count = match written {
            Ok(()) => bytes.len() as u32,
            Err(torn) => torn.taken,
        };
        let place = file as usize;
        self.lens[place] = grown(self.lens[place], from, count);
        written
    }

    /// Writes to a bound file, where the device is in use.
    pub(crate) fn write(&mut self, file: u32, from: u32, bytes: &[u8]) -> Option<Result<(), Torn>>
        requires ready { IsTrue self.old.in_use → IsTrue (D.told self.old.disk).is_ready }
        requires named { IsTrue self.old.in_use → file < (D.told self.old.disk).bound }
        requires few { IsTrue self.old.in_use → (D.told self.old.disk).bound ≤ 16 }
        requires within { from + length bytes.now ≤ FILE_BYTES }
        ensures writes { SideWrites D.told self.old self.new file from bytes.now result }
        ensures called { is_some result ≡ self.old.in_use }
        ensures in_use { self.new.in_use ≡ self.old.in_use }
    {
        if self.in_use {
            Some(self.write_now(file, from, bytes))
        } else {
            None
        }
    }
}
