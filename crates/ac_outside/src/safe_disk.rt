//! A disk in memory that never fails.

ghost use Rattle.std.specs.Prelude.{◌≡◌, ◌+◌, ◌<◌, ◌≤◌, [], ◌++◌, length, take, drop, IsTrue, IfOk, IfSome, Ok, Some, true};
ghost use Rattle.ac_outside.specs.Causes.{BindHasCause};
ghost use Rattle.ac_outside.specs.Disks.{BindLeaves, bound_by, stays_ready};
ghost use Rattle.ac_outside.specs.Files.{file_at, file_of, part, told_length};
ghost use Rattle.ac_outside.specs.Texts.{text_of, with_name};
ghost use Rattle.ac_outside.specs.Told.{one_more};
ghost use Rattle.ac_outside.specs.Views.{bound-told, stored_bind, stored_write, told_by_safe_disk};

use crate::disk::{Disk, FILE_BYTES};
use crate::failed::{BindFault, Failed, Torn};
use crate::names::Names;
use crate::shelf::NamedBytes;
use crate::store::Store;
use ac_base::{List, NoMemory};
use std::marker::Model;

/// A disk in memory that never fails. A path that it does not hold is bound empty. It tells the paths
/// that it was to bind, up to sixteen, each of at most 4,096 bytes.
#[derive(Debug, Drop)]
pub struct SafeDisk {
    store: Store,
    calls: u64,
    binds: Names,
}

impl Model for SafeDisk {
    ghost use Rattle.ac_outside.specs.Views.{SafeFiles};

    ghost Value = { SafeFiles };

    ghost view = { λ s. record { stored = s.store; calls = s.calls; binds = s.binds } };
}

impl SafeDisk {
    /// A disk of these files, none of them bound.
    pub fn new(files: List<NamedBytes>) -> Result<SafeDisk, NoMemory>
        ensures { IfOk result (λ disk. disk ≡
            record { stored = record { files = []; given = files; is_ready = true }; calls = 0; binds = Some [] }) }
    {
        let files = files.into_vec();
        let binds = Names::new(*files.allocator())?;
        Ok(SafeDisk {
            store: Store::new(List::from_vec(files)),
            calls: 0,
            binds,
        })
    }

    /// The bytes of a bound file.
    pub fn contents(&self, file: u32) -> &[u8]
        requires { file < length self.now.stored.files }
        ensures { result.now ≡ (file_of self.now.stored.files file).bytes }
    {
        self.store.contents(file)
    }

    /// The number of calls so far of `bind`, `read_at` and `write_at`.
    pub fn calls(&self) -> u64
        ensures { result ≡ self.now.calls }
    {
        self.calls
    }
}

impl Disk for SafeDisk {
    ghost told = { told_by_safe_disk };

    ghost tells_bound = { λ disk. bound-told disk.stored disk.calls };

    fn bind(&mut self, _file: u32, path: &str) -> Result<u32, BindFault>
        requires ready { IsTrue self.old.stored.is_ready }
        requires few { length self.old.stored.files < 16 }
        ensures bound { length self.new.stored.files ≡ bound_by (length self.old.stored.files) result }
        ensures ready { self.new.stored.is_ready ≡ stays_ready result }
        ensures leaves { IfSome (told_by_safe_disk self.old).held (λ held.
            BindLeaves held (told_by_safe_disk self.new).held path.now result) }
        ensures cause { BindHasCause 0 0 result }

        // It binds the file, unless memory is refused.
        ensures after { self.new ≡ record self.old {
          stored = stored_bind self.old.stored path.now result;
          calls = one_more self.old.calls;
          binds = with_name self.old.binds path.now;
        } }
        ensures len { IfOk result (λ len. len ≡ told_length (file_at (text_of self.old.stored.given) path.now).bytes) }
    {
        self.calls = self.calls.saturating_add(1);
        self.binds.note(path.as_bytes());
        match self.store.bind(path.as_bytes()) {
            Ok(len) => Ok(len),
            Err(_) => Err(BindFault::NoMemory),
        }
    }

    fn bound(&self) -> u32 {
        self.store.bound()
    }

    fn read_at(&mut self, file: u32, from: u32, into: &mut [u8]) -> Result<usize, Failed>
        requires ready { IsTrue self.old.stored.is_ready }
        requires named { file < length self.old.stored.files }
        ensures bytes { IfSome (told_by_safe_disk self.old).held (λ held. IfOk result (λ count.
            take count into.new ≡ part (file_of held.files file).bytes from (length into.old))) }

        // It gives as much of the file as fits, and leaves the rest of the slice as it was.
        ensures count { result ≡ Ok (length (part (file_of self.old.stored.files file).bytes from (length into.old))) }
        ensures into { IfOk result (λ count.
            into.new ≡ part (file_of self.old.stored.files file).bytes from (length into.old) ++ drop count into.old) }
        ensures after { self.new ≡ record self.old { calls = one_more self.old.calls } }
    {
        self.calls = self.calls.saturating_add(1);
        Ok(self.store.read_at(file, from, into))
    }

    fn write_at(&mut self, file: u32, from: u32, bytes: &[u8]) -> Result<(), Torn>
        requires ready { IsTrue self.old.stored.is_ready }
        requires named { file < length self.old.stored.files }
        requires within { from + length bytes.now ≤ FILE_BYTES }
        ensures well { result ≡ Ok tt }
        ensures after { self.new ≡ record self.old {
          stored = stored_write self.old.stored file from bytes.now;
          calls = one_more self.old.calls;
        } }
    {
        self.calls = self.calls.saturating_add(1);
        self.store.write_at(file, from, bytes);
        Ok(())
    }
}
