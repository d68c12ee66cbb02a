//! The files of the system as a disk.

ghost use Rattle.std.specs.Prelude.{◌≡◌, ◌≤◌, [], ◌∷◌, ◌++◌, ◌-◌, min, length, IfErr, OnOk, None, Some, true};
ghost use Rattle.std.specs.Io.{ReadsAtMost, WritesAtMost};

use crate::again;
use crate::limits::most_bytes;
use ac_base::{Bytes, List, NoMemory};
use ac_outside::{BindFault, Disk, FILE_BYTES, Failed, Torn};
use std::alloc::Global;
use std::fs::OpenOptions;
use std::io;
use std::marker::Model;
use std::os::unix::fs::FileExt;
use std::rt::Files;

/// The files of the system, bound by their paths.
///
/// It tells the paths that it was to bind, until memory was refused, and no contents. That a write past
/// the end of a file fills the gap with zeros is the system's. A write goes in as far as the limit of the
/// process on the size of files allows (`ulimit -f`), as it was when the disk was made, and fails there.
#[derive(Drop)]
pub struct FileDisk<'a, R: Files> {
    files: &'a R,
    bound: Vec<R::File>,
    binds: Vec<Bytes>,
    is_ready: bool,
    faults: u64,
    earlier: u64,
    // How many bytes a file may have by the limit of the process.
    limit: u64,
}

impl<'a, R: Files> Model for FileDisk<'a, R> {
    ghost use Rattle.std.specs.Prelude.{◌≤◌, Some, None, length, if◌then◌else◌};
    ghost use Rattle.ac_adapters.specs.inner.Binding.{Binding};

    ghost Value = { Binding };

    ghost view = { λ s.
        record {
          bound = length s.bound.items;
          is_ready = s.is_ready;
          binds = (if s.is_ready then Some s.binds.items else None);
          faults = s.faults;
          earlier = s.earlier;
        } };

    ghost invariant = { λ s. length s.bound.items ≤ 16 };
}

impl<'a, R: Files> FileDisk<'a, R> {
    /// The files of this runtime, none of them bound.
    pub fn new(files: &'a R, alloc: Global) -> FileDisk<'a, R>
        ensures { result ≡ record { bound = 0; is_ready = true; binds = Some []; faults = 0; earlier = 0 } }
    {
        FileDisk {
            files,
            bound: Vec::new(alloc),
            binds: Vec::new(alloc),
            is_ready: true,
            faults: 0,
            earlier: 0,
            limit: most_bytes(files),
        }
    }

    /// The number of calls so far that have failed.
    pub fn faults(&self) -> u64
        ensures { result ≡ self.now.faults }
    {
        self.faults
    }
}

// Appends a path.
fn note(paths: &mut Vec<Bytes>, path: &str) -> Result<(), NoMemory>
    ensures { OnOk result (paths.new.items ≡ paths.old.items ++ path.now ∷ []) }
{
    let bytes = Vec::from_slice(*paths.allocator(), path.as_bytes())?;
    paths.push(List::from_vec(bytes))?;
    Ok(())
}

// Opens the file of a path, an empty one where there is none, and gives its length.
fn open_at<R: Files>(files: &R, path: &str) -> io::Result<(R::File, u64)> {
    let mut how = OpenOptions::new();
    how.read(true).write(true).create(true);
    let file = how.open(files, path)?;
    let len = again::length(&file)?;
    Ok((file, len))
}

// Reads until the slice is full or the file has no more.
fn read_all<F: FileExt>(file: &F, from: u32, into: &mut [u8]) -> io::Result<usize>
    requires { length into.old ≤ FILE_BYTES }
    ensures { ReadsAtMost result into.new }
{
    let mut at = 0;
    while at < into.len() {
        let count = again::read_at(file, &mut into[at..], u64::from(from) + at as u64)?;
        if count == 0 {
            break;
        }
        at += count;
    }
    Ok(at)
}

// How many of so many bytes, from a place on, lie below the limit.
fn room_below(limit: u64, from: u64, len: usize) -> usize
    ensures { result ≡ min (limit - from) len }
{
    limit.saturating_sub(from).min(len as u64) as usize
}

// Writes what of the bytes lies below the limit. A write beyond it would end the process by a signal.
fn write_below<F: FileExt>(file: &F, limit: u64, from: u64, bytes: &[u8]) -> io::Result<usize>
    ensures { WritesAtMost result bytes.now }
{
    let room = room_below(limit, from, bytes.len());
    again::write_at(file, &bytes[..room], from)
}

// Writes until all bytes have gone in, or the system or the limit takes none.
fn write_all<F: FileExt>(file: &F, limit: u64, from: u32, bytes: &[u8]) -> Result<(), Torn>
    requires { length bytes.now ≤ FILE_BYTES }
    ensures { IfErr result (λ torn. torn.taken ≤ length bytes.now) }
{
    let mut at = 0;
    while at < bytes.len() {
        match write_below(file, limit, u64::from(from) + at as u64, &bytes[at..]) {
            Ok(count) if count > 0 => at += count,
            _ => return Err(Torn { taken: at as u32 }),
        }
    }
    Ok(())
}

impl<R: Files> Disk for FileDisk<'_, R>
where
    R::File: FileExt,
{
    ghost told = { λ s.
        record { held = None; bound = s.bound; is_ready = s.is_ready; binds = s.binds; faults = s.faults; earlier = s.earlier } };

    ghost tells_bound = { λ disk. tt };

    fn bind(&mut self, _file: u32, path: &str) -> Result<u32, BindFault> {
        self.earlier = self.faults;
        if note(&mut self.binds, path).is_err() {
            self.is_ready = false;
            return Err(BindFault::NoMemory);
        }
        let Ok((file, len)) = open_at(self.files, path) else {
            self.faults = self.faults.saturating_add(1);
            return Err(BindFault::Failed);
        };
        match self.bound.push(file) {
            Ok(()) => Ok(len.min(u64::from(u32::MAX)) as u32),
            Err(_) => {
                self.is_ready = false;
                Err(BindFault::NoMemory)
            }
        }
    }

    fn bound(&self) -> u32 {
        self.bound.len() as u32
    }

    fn read_at(&mut self, file: u32, from: u32, into: &mut [u8]) -> Result<usize, Failed> {
        self.earlier = self.faults;
        match read_all(&self.bound[file as usize], from, into) {
            Ok(count) => Ok(count),
            Err(_) => {
                self.faults = self.faults.saturating_add(1);
                Err(Failed)
            }
        }
    }

    fn write_at(&mut self, file: u32, from: u32, bytes: &[u8]) -> Result<(), Torn> {
        self.earlier = self.faults;
        let written = write_all(&self.bound[file as usize], self.limit, from, bytes);
        if written.is_err() {
            self.faults = self.faults.saturating_add(1);
        }
        written
    }
}
