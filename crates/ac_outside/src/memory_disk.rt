//! A disk in memory that fails where it is told to.

ghost use Rattle.std.specs.Prelude.{◌≡◌, ◌+◌, ◌<◌, ◌≤◌, ◌↔◌, [], ◌++◌, length, take, drop, IsTrue, IsSome, IfOk, IfErr, IfSome, OnErr};
ghost use Rattle.std.specs.Prelude.{Ok, Err, Some, is_err, is_some, if◌then◌else◌, true};
ghost use Rattle.std.specs.Io.{ReadsAtMost};
ghost use Rattle.ac_outside.specs.Causes.{BindHasCause, HasCause};
ghost use Rattle.ac_outside.specs.Disks.{BindLeaves, bound_by, stays_ready};
ghost use Rattle.ac_outside.specs.Files.{bytes_in, file_at, file_of, part, told_length};
ghost use Rattle.ac_outside.specs.Texts.{text_of, with_name};
ghost use Rattle.ac_outside.specs.Told.{one_more};
ghost use Rattle.ac_outside.specs.Views.{bound-told, fail_at, stored_bind, stored_write, told_by_failing_disk, torn_by};

use crate::disk::{Disk, FILE_BYTES};
use crate::failed::{BindFault, Failed, Torn};
use crate::names::Names;
use crate::shelf::NamedBytes;
use crate::store::Store;
use ac_base::{List, NoMemory};
use std::marker::Model;

/// The number of a call that fails. Where it is a write, so many of its first bytes go in, and all
/// of them where they are fewer.
#[derive(Clone, Copy, Debug)]
pub struct DiskFail {
    pub call: u64,
    pub taken: u32,
}

// How the call of this number fails, where it does.
fn failure_at(fails: &[DiskFail], call: u64) -> Option<DiskFail>
    ensures { result ≡ fail_at fails.now call }
{
    for fail in fails {
        if fail.call == call {
            return Some(*fail);
        }
    }
    None
}

/// A disk in memory that fails exactly in the listed calls. Calls are numbered from 0, binds, reads
/// and writes together. A path that it does not hold is bound empty. It tells the paths that it was
/// to bind, up to sixteen, each of at most 4,096 bytes.
#[derive(Debug, Drop)]
pub struct MemoryDisk {
    store: Store,
    calls: u64,
    fails: List<DiskFail>,
    binds: Names,
    faults: u64,
    earlier: u64,
}

impl Model for MemoryDisk {
    ghost use Rattle.ac_outside.specs.Views.{FailingFiles};

    ghost Value = { FailingFiles };

    ghost view = { λ s.
        record {
          stored = s.store;
          calls = s.calls;
          fails = s.fails;
          binds = s.binds;
          faults = s.faults;
          earlier = s.earlier;
        } };
}

impl MemoryDisk {
    /// A disk of these files, none of them bound, that fails in the calls of these numbers.
    pub fn new(files: List<NamedBytes>, fails: List<DiskFail>) -> Result<MemoryDisk, NoMemory>
        ensures { IfOk result (λ disk. disk ≡
            record {
              stored = record { files = []; given = files; is_ready = true };
              calls = 0;
              fails = fails;
              binds = Some [];
              faults = 0;
              earlier = 0;
            }) }
    {
        let files = files.into_vec();
        let binds = Names::new(*files.allocator())?;
        Ok(MemoryDisk {
            store: Store::new(List::from_vec(files)),
            calls: 0,
            fails,
            binds,
            faults: 0,
            earlier: 0,
        })
    }

    /// The bytes of a bound file.
    pub fn contents(&self, file: u32) -> &[u8]
        requires { file < length self.now.stored.files }
        ensures { result.now ≡ (file_of self.now.stored.files file).bytes }
    {
        self.store.contents(file)
    }

    /// The number of calls so far of `bind`, `read_at` and `write_at`.
    pub fn calls(&self) -> u64
        ensures { result ≡ self.now.calls }
    {
        self.calls
    }

    /// The number of calls so far that have failed.
    pub fn faults(&self) -> u64
        ensures { result ≡ self.now.faults }
    {
        self.faults
    }

    // Counts a call, and a fault where it is a call that fails, and says how it fails.
    fn count_call(&mut self) -> Option<DiskFail>
        ensures fail { result ≡ fail_at self.old.fails self.old.calls }
        ensures after { self.new ≡ record self.old {
          calls = one_more self.old.calls;
          faults = (if is_some result then one_more self.old.faults else self.old.faults);
          earlier = self.old.faults;
        } }
        ensures later { self.old.faults ≤ self.new.faults }
    {
        let fail = failure_at(self.fails.as_slice(), self.calls);
        self.calls = self.calls.saturating_add(1);
        self.earlier = self.faults;
        if fail.is_some() {
            self.faults = self.faults.saturating_add(1);
        }
        fail
    }
}

impl Disk for MemoryDisk {
    ghost told = { told_by_failing_disk };

    ghost tells_bound = { λ disk. bound-told disk.stored disk.calls };

    fn bind(&mut self, _file: u32, path: &str) -> Result<u32, BindFault>
        requires ready { IsTrue self.old.stored.is_ready }
        requires few { length self.old.stored.files < 16 }
        ensures bound { length self.new.stored.files ≡ bound_by (length self.old.stored.files) result }
        ensures ready { self.new.stored.is_ready ≡ stays_ready result }
        ensures leaves { IfSome (told_by_failing_disk self.old).held (λ held.
            BindLeaves held (told_by_failing_disk self.new).held path.now result) }
        ensures cause { BindHasCause self.old.faults self.new.faults result }

        // It fails exactly in the listed calls, and then changes nothing.
        ensures exactly { (result ≡ Err BindFault.Failed) ↔ IsSome (fail_at self.old.fails self.old.calls) }
        ensures after { self.new ≡ record self.old {
          stored = stored_bind self.old.stored path.now result;
          calls = one_more self.old.calls;
          binds = with_name self.old.binds path.now;
          faults = (if is_some (fail_at self.old.fails self.old.calls) then one_more self.old.faults else self.old.faults);
          earlier = self.old.faults;
        } }
        ensures len { IfOk result (λ len. len ≡ told_length (file_at (text_of self.old.stored.given) path.now).bytes) }
    {
        self.binds.note(path.as_bytes());
        if self.count_call().is_some() {
            return Err(BindFault::Failed);
        }
        match self.store.bind(path.as_bytes()) {
            Ok(len) => Ok(len),
            Err(_) => Err(BindFault::NoMemory),
        }
    }

    fn bound(&self) -> u32 {
        self.store.bound()
    }

    fn read_at(&mut self, file: u32, from: u32, into: &mut [u8]) -> Result<usize, Failed>
        requires ready { IsTrue self.old.stored.is_ready }
        requires named { file < length self.old.stored.files }
        ensures most { ReadsAtMost result into.new }
        ensures bytes { IfSome (told_by_failing_disk self.old).held (λ held. IfOk result (λ count.
            take count into.new ≡ part (file_of held.files file).bytes from (length into.old))) }
        ensures cause { HasCause self.old.faults self.new.faults result }

        // It fails exactly in the listed calls, and changes no file.
        ensures exactly { IsTrue (is_err result) ↔ IsSome (fail_at self.old.fails self.old.calls) }
        ensures after { self.new ≡ record self.old {
          calls = one_more self.old.calls;
          faults = (if is_err result then one_more self.old.faults else self.old.faults);
          earlier = self.old.faults;
        } }

        // It gives as much of the file as fits, and leaves the rest of the slice as it was.
        ensures count { IfOk result (λ count. count ≡ length (part (file_of self.old.stored.files file).bytes from (length into.old))) }
        ensures ok { IfOk result (λ count.
            into.new ≡ part (file_of self.old.stored.files file).bytes from (length into.old) ++ drop count into.old) }
        ensures err { OnErr result (into.new ≡ into.old) }
    {
        if self.count_call().is_some() {
            return Err(Failed);
        }
        Ok(self.store.read_at(file, from, into))
    }

    fn write_at(&mut self, file: u32, from: u32, bytes: &[u8]) -> Result<(), Torn>
        requires ready { IsTrue self.old.stored.is_ready }
        requires named { file < length self.old.stored.files }
        requires within { from + length bytes.now ≤ FILE_BYTES }
        ensures most { IfErr result (λ torn. torn.taken ≤ length bytes.now) }
        ensures cause { HasCause self.old.faults self.new.faults result }

        // It fails exactly in the listed calls, after as many bytes as are told there.
        ensures exactly { result ≡ torn_by (fail_at self.old.fails self.old.calls) bytes.now }
        ensures after { self.new ≡ record self.old {
          stored = stored_write self.old.stored file from (bytes_in result bytes.now);
          calls = one_more self.old.calls;
          faults = (if is_err result then one_more self.old.faults else self.old.faults);
          earlier = self.old.faults;
        } }
    {
        match self.count_call() {
            None => {
                self.store.write_at(file, from, bytes);
                Ok(())
            }
            Some(fail) => {
                let taken = bytes.len().min(fail.taken as usize);
                self.store.write_at(file, from, &bytes[..taken]);
                Err(Torn {
                    taken: taken as u32,
                })
            }
        }
    }
}
