//! A disk under whose paths another holds what it holds under these with a prefix.

ghost use Rattle.std.specs.Prelude.{◌≡◌, ◌+◌, ◌<◌, ◌≤◌, ◌++◌, length, string_bytes, true, IfOk, IfSome, IsTrue};
ghost use Rattle.std.specs.Io.{ReadsAtMost};
ghost use Rattle.ac_outside.specs.Disks.{IsFresh};
ghost use Rattle.ac_outside.specs.Told.{AddsName};
ghost use Rattle.ac_mirror_disk.specs.Calls.{HasBound, HasRead, HasWritten};
ghost use Rattle.ac_mirror_disk.specs.Prefixes.{JoinsBind, told_under_prefix, under-told};

use crate::binding::may_go_on;
use ac_base::NoMemory;
use ac_outside::{BindFault, Disk, FILE_BYTES, Failed, Torn};
use std::alloc::Global;
use std::marker::Model;

/// A disk that puts a prefix before each path. Under each path it holds what the other disk holds under
/// the prefix and that path, and it tells this where that one tells what it holds, until one of its own
/// binds was refused memory.
#[derive(Drop)]
pub struct Prefixed<D: Disk> {
    disk: D,
    alloc: Global,
    prefix: String,
    is_ready: bool,
}

impl<D: Disk> Model for Prefixed<D> {
    ghost use Rattle.std.specs.Prelude.{string_bytes};
    ghost use Rattle.ac_mirror_disk.specs.Prefixes.{UnderPrefix};

    ghost Value = { UnderPrefix D };

    ghost use Rattle.ac_mirror_disk.specs.Joining.{IsUnder};

    ghost view = { λ s. record { disk = s.disk; prefix = string_bytes s.prefix; is_ready = s.is_ready } };

    ghost invariant = { λ s. IsUnder D.told (record { disk = s.disk; prefix = string_bytes s.prefix; is_ready = s.is_ready }) };
}

// The prefix and the path.
fn join(alloc: Global, prefix: &str, path: &str) -> Result<String, NoMemory>
    ensures { IfOk result (λ whole. string_bytes whole ≡ prefix.now ++ path.now) }
{
    let mut whole = String::from_str(alloc, prefix)?;
    whole.push_str(path)?;
    Ok(whole)
}

// Binds the file of the prefix and the path.
fn bind_joined<D: Disk>(
    disk: &mut D,
    alloc: Global,
    prefix: &str,
    file: u32,
    path: &str,
) -> Result<u32, BindFault>
    requires ready { IsTrue (D.told disk.old).is_ready }
    requires next { file ≡ (D.told disk.old).bound }
    requires few { file < 16 }
    requires fresh { IfSome (D.told disk.old).held (λ held. IsFresh held (prefix.now ++ path.now)) }
    ensures { JoinsBind (D.told disk.old) (D.told disk.new) (prefix.now ++ path.now) result }
{
    let Ok(whole) = join(alloc, prefix, path) else {
        return Err(BindFault::NoMemory);
    };
    disk.bind(file, whole.as_str())
}

impl<D: Disk + Drop> Prefixed<D> {
    /// A disk that puts this prefix before each path.
    ///
    /// Conditions: no file is bound on the disk, and it may be called.
    pub fn new(alloc: Global, disk: D, prefix: &str) -> Result<Prefixed<D>, NoMemory>
        requires ready { IsTrue (D.told disk).is_ready }
        requires none { (D.told disk).bound ≡ 0 }
        ensures { IfOk result (λ it. it ≡ record { disk = disk; prefix = prefix.now; is_ready = true }) }
    {
        let prefix = String::from_str(alloc, prefix)?;
        Ok(Prefixed {
            disk,
            alloc,
            prefix,
            is_ready: true,
        })
    }
}

impl<D: Disk> Prefixed<D> {
    /// The disk below.
    pub fn disk(&self) -> &D
        ensures { result.now ≡ self.now.disk }
    {
        &self.disk
    }
}

impl<D: Disk> Disk for Prefixed<D> {
    ghost told = { told_under_prefix D.told };

    ghost tells_bound = { under-told D.told D.tells_bound };

    fn bind(&mut self, file: u32, path: &str) -> Result<u32, BindFault>
        requires ready { IsTrue self.old.is_ready }
        requires next { file ≡ (D.told self.old.disk).bound }
        requires few { file < 16 }
        requires fresh { IfSome (told_under_prefix D.told self.old).held (λ held. IsFresh held path.now) }
        ensures told { HasBound (told_under_prefix D.told self.old) (told_under_prefix D.told self.new) path.now result }
        ensures asked { AddsName (told_under_prefix D.told self.old).binds (told_under_prefix D.told self.new).binds path.now }
        ensures earlier { (told_under_prefix D.told self.new).earlier ≡ (D.told self.old.disk).faults }

        // It puts the prefix before the path, unless memory for both is refused.
        ensures joins { JoinsBind (D.told self.old.disk) (D.told self.new.disk) (self.old.prefix ++ path.now) result }
        ensures prefix { self.new.prefix ≡ self.old.prefix }
    {
        let bound = bind_joined(&mut self.disk, self.alloc, self.prefix.as_str(), file, path);
        self.is_ready = may_go_on(bound);
        bound
    }

    fn bound(&self) -> u32
        ensures { result ≡ (D.told self.now.disk).bound }
    {
        self.disk.bound()
    }

    fn read_at(&mut self, file: u32, from: u32, into: &mut [u8]) -> Result<usize, Failed>
        requires ready { IsTrue self.old.is_ready }
        requires named { file < (D.told self.old.disk).bound }
        requires within { from + length into.old ≤ FILE_BYTES }
        ensures told { HasRead (told_under_prefix D.told self.old) (told_under_prefix D.told self.new)
            file from (length into.old) into.new result }
        ensures most { ReadsAtMost result into.new }
        ensures earlier { (told_under_prefix D.told self.new).earlier ≡ (D.told self.old.disk).faults }
        ensures prefix { self.new.prefix ≡ self.old.prefix }
    {
        self.disk.read_at(file, from, into)
    }

    fn write_at(&mut self, file: u32, from: u32, bytes: &[u8]) -> Result<(), Torn>
        requires ready { IsTrue self.old.is_ready }
        requires named { file < (D.told self.old.disk).bound }
        requires within { from + length bytes.now ≤ FILE_BYTES }
        ensures told { HasWritten (told_under_prefix D.told self.old) (told_under_prefix D.told self.new) file from bytes.now result }
        ensures earlier { (told_under_prefix D.told self.new).earlier ≡ (D.told self.old.disk).faults }
        ensures prefix { self.new.prefix ≡ self.old.prefix }
    {
        self.disk.write_at(file, from, bytes)
    }
}
