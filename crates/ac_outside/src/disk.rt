//! Where a program keeps files.

ghost use Rattle.std.specs.Prelude.{◌≡◌, ◌+◌, ◌<◌, ◌≤◌, length, take, IsTrue, IfSome, IfOk, IfErr, None, Some};
ghost use Rattle.std.specs.Io.{ReadsAtMost};
ghost use Rattle.ac_outside.specs.Causes.{BindHasCause, HasCause};
ghost use Rattle.ac_outside.specs.Disks.{BindLeaves, BindsNone, DiskTold, IsFresh, bound_by, called, stays_ready, with_written};
ghost use Rattle.ac_outside.specs.Files.{bytes_in, file_of, part};
ghost use Rattle.ac_outside.specs.Told.{AddsName};

use crate::failed::{BindFault, Failed, Torn};

/// The place in a file before which each read and write ends: 1 MiB.
pub const FILE_BYTES: usize = 1_048_576;

/// Files by path, of which at most sixteen are bound, to the numbers 0, 1, .. in order.
///
/// What it tells is for clauses alone, and of its files it may tell nothing, and then goes on to
/// tell nothing; where it does, it goes on to do so, unless a `bind` answers `NoMemory`. After that it
/// is called no more. Its count of faults never falls. It rises, or stands at its last value, in each
/// call that answers `Failed` or `Torn`, and in no other.
pub trait Disk {
    // its files and the number of its calls, the number of bound files, whether it may be called, the
    // paths that were to be bound, and how often a call failed, and had before the latest one
    ghost told: { Self → DiskTold };

    /// Binds the file of a path that is not bound, and gives its length, or the greatest number of
    /// 32 bits where the length is greater. Where there is no file it makes an empty one. `Failed`
    /// has bound nothing, and may have made the empty file.
    fn bind(&mut self, file: u32, path: &str) -> Result<u32, BindFault>
        requires ready { IsTrue (told self.old).is_ready }
        requires next { file ≡ (told self.old).bound }
        requires few { file < 16 }
        requires fresh { IfSome (told self.old).held (λ held. IsFresh held path.now) }
        ensures bound { (told self.new).bound ≡ bound_by (told self.old).bound result }
        ensures ready { (told self.new).is_ready ≡ stays_ready result }
        ensures leaves { IfSome (told self.old).held (λ held. BindLeaves held (told self.new).held path.now result) }
        ensures silent { (told self.old).held ≡ None → (told self.new).held ≡ None }
        ensures asked { AddsName (told self.old).binds (told self.new).binds path.now }
        ensures earlier { (told self.new).earlier ≡ (told self.old).faults }
        ensures cause { BindHasCause (told self.old).faults (told self.new).faults result };

    /// The number of bound files.
    fn bound(&self) -> u32
        ensures { result ≡ (told self.now).bound };

    /// Gives the bytes of a bound file from a place on, as many as there are and fit, and how many
    /// these are.
    fn read_at(&mut self, file: u32, from: u32, into: &mut [u8]) -> Result<usize, Failed>
        requires ready { IsTrue (told self.old).is_ready }
        requires named { file < (told self.old).bound }
        requires within { from + length into.old ≤ FILE_BYTES }
        ensures none { BindsNone (told self.old) (told self.new) }
        ensures most { ReadsAtMost result into.new }
        ensures same { IfSome (told self.old).held (λ held. (told self.new).held ≡ Some (called held)) }
        ensures silent { (told self.old).held ≡ None → (told self.new).held ≡ None }
        ensures bytes { IfSome (told self.old).held (λ held. IfOk result (λ count.
            take count into.new ≡ part (file_of held.files file).bytes from (length into.old))) }
        ensures earlier { (told self.new).earlier ≡ (told self.old).faults }
        ensures cause { HasCause (told self.old).faults (told self.new).faults result };

    /// Writes the bytes at a place of a bound file. Zeros fill a gap before them. `Torn` tells how
    /// many of the first bytes went in; where it is none of them nothing has changed.
    fn write_at(&mut self, file: u32, from: u32, bytes: &[u8]) -> Result<(), Torn>
        requires ready { IsTrue (told self.old).is_ready }
        requires named { file < (told self.old).bound }
        requires within { from + length bytes.now ≤ FILE_BYTES }
        ensures none { BindsNone (told self.old) (told self.new) }
        ensures most { IfErr result (λ torn. torn.taken ≤ length bytes.now) }
        ensures bytes { IfSome (told self.old).held (λ held.
            (told self.new).held ≡ Some (with_written held file from (bytes_in result bytes.now))) }
        ensures silent { (told self.old).held ≡ None → (told self.new).held ≡ None }
        ensures earlier { (told self.new).earlier ≡ (told self.old).faults }
        ensures cause { HasCause (told self.old).faults (told self.new).faults result };

    // a disk that tells its files has as many bound as it tells
    ghost tells_bound: { (disk : Self) → IfSome (told disk).held (λ held. (told disk).bound ≡ length held.files) };
}
