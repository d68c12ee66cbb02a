//! Files by path in memory, of which some are bound.

ghost use Rattle.std.specs.Prelude.{◌≡◌, ◌+◌, ◌<◌, ◌≤◌, [], ◌∷◌, ◌++◌, length, drop, unwrap_or, IfOk, OnOk, OnErr, true, false};
ghost use Rattle.ac_outside.specs.Files.{file_at, file_of, part, told_length, written};
ghost use Rattle.ac_outside.specs.Texts.{text_of};
ghost use Rattle.file_bytes.specs.Overwritten.{overwritten};

use crate::disk::FILE_BYTES;
use crate::shelf::NamedBytes;
use ac_base::{Bytes, List, NoMemory};
use file_bytes::overwrite;
use std::alloc::Global;
use std::marker::Model;

/// A bound file. It has room for all bytes that may be written to it.
#[derive(Debug, Drop)]
struct BoundFile {
    path: Bytes,
    bytes: Vec<u8>,
}

impl Model for BoundFile {
    ghost use Rattle.std.specs.Prelude.{◌≤◌, vec_capacity};
    ghost use Rattle.ac_outside.specs.declared.shelf.NamedBytes.{NamedBytes};
    ghost use Rattle.ac_outside.specs.declared.disk.TheConstants.{FILE_BYTES};

    ghost Value = { NamedBytes };

    ghost view = { λ s. record { name = s.path; bytes = s.bytes.items } };

    ghost invariant = { λ s. FILE_BYTES ≤ vec_capacity s.bytes };
}

// What stands in a file from a place on, as much as there is up to the length.
fn part_of(file: &[u8], from: usize, len: usize) -> &[u8]
    ensures { result.now ≡ part file.now from len }
{
    let rest = &file[file.len().min(from)..];
    &rest[..rest.len().min(len)]
}

impl BoundFile {
    // A file of these bytes.
    fn new(alloc: Global, path: &[u8], bytes: &[u8]) -> Result<BoundFile, NoMemory>
        ensures { IfOk result (λ file. file ≡ record { name = path.now; bytes = bytes.now }) }
    {
        let path = Vec::from_slice(alloc, path)?;
        let mut room = Vec::with_capacity(alloc, bytes.len().max(FILE_BYTES))?;
        room.extend_from_slice(bytes)?;
        Ok(BoundFile {
            path: List::from_vec(path),
            bytes: room,
        })
    }

    // Gives the bytes from a place on, as many as there are and fit.
    fn read(&self, from: u32, into: &mut [u8]) -> usize
        ensures count { result ≡ length (part self.now.bytes from (length into.old)) }
        ensures bytes { into.new ≡ part self.now.bytes from (length into.old) ++ drop result into.old }
    {
        let found = part_of(self.bytes.as_slice(), from as usize, into.len());
        into[..found.len()].copy_from_slice(found);
        found.len()
    }

    // Writes the bytes at a place; zeros fill a gap before them.
    fn write(&mut self, from: u32, bytes: &[u8])
        requires { from + length bytes.now ≤ FILE_BYTES }
        ensures { self.new ≡ record self.old { bytes = overwritten self.old.bytes from bytes.now } }
    {
        overwrite(&mut self.bytes, from as usize, bytes);
    }
}

// The bytes of the first text with this name, and none where there is no such text.
fn bytes_at<'a>(texts: &'a [NamedBytes], name: &[u8]) -> &'a [u8]
    ensures { result.now ≡ unwrap_or (text_of texts.now name.now) [] }
{
    match texts.iter().find(|text| text.name.as_slice() == name) {
        Some(text) => text.bytes.as_slice(),
        None => &[],
    }
}

/// The files that are bound, and those that it was made of. A file that is bound is copied, so the
/// others stay as they were given.
#[derive(Debug, Drop)]
pub(crate) struct Store {
    bound: Vec<BoundFile>,
    given: List<NamedBytes>,
    is_ready: bool,
}

impl Model for Store {
    ghost use Rattle.std.specs.Prelude.{◌≤◌, length};
    ghost use Rattle.ac_outside.specs.Views.{StoredFiles};

    ghost Value = { StoredFiles };

    ghost view = { λ s. record { files = s.bound.items; given = s.given; is_ready = s.is_ready } };

    ghost invariant = { λ s. length s.bound.items ≤ 16 };
}

impl Store {
    /// A store of these files, none of them bound.
    pub(crate) fn new(given: List<NamedBytes>) -> Store
        ensures { result ≡ record { files = []; given = given; is_ready = true } }
    {
        let given = given.into_vec();
        let bound = Vec::new(*given.allocator());
        Store {
            bound,
            given: List::from_vec(given),
            is_ready: true,
        }
    }

    /// The number of bound files.
    pub(crate) fn bound(&self) -> u32
        ensures { result ≡ length self.now.files }
    {
        self.bound.len() as u32
    }

    // Binds a file, unless memory is refused.
    fn add(&mut self, path: &[u8]) -> Result<u32, NoMemory>
        requires { length self.old.files < 16 }
        ensures len { IfOk result (λ len. len ≡ told_length (file_at (text_of self.old.given) path.now).bytes) }
        ensures ok { OnOk result (self.new ≡ record self.old { files = self.old.files ++ file_at (text_of self.old.given) path.now ∷ [] }) }
        ensures err { OnErr result (self.new ≡ self.old) }
    {
        let bytes = bytes_at(self.given.as_slice(), path);
        let len = bytes.len().min(u32::MAX as usize);
        let file = BoundFile::new(*self.bound.allocator(), path, bytes)?;
        self.bound.push(file)?;
        Ok(len as u32)
    }

    /// Binds the file under this path, or an empty one where there is none, and gives its length as
    /// far as 32 bits tell it. Once memory is refused it is not ready.
    pub(crate) fn bind(&mut self, path: &[u8]) -> Result<u32, NoMemory>
        requires { length self.old.files < 16 }
        ensures len { IfOk result (λ len. len ≡ told_length (file_at (text_of self.old.given) path.now).bytes) }
        ensures ok { OnOk result (self.new ≡ record self.old { files = self.old.files ++ file_at (text_of self.old.given) path.now ∷ [] }) }
        ensures err { OnErr result (self.new ≡ record self.old { is_ready = false }) }
    {
        let added = self.add(path);
        if added.is_err() {
            self.is_ready = false;
        }
        added
    }

    /// The bytes of a bound file.
    pub(crate) fn contents(&self, file: u32) -> &[u8]
        requires { file < length self.now.files }
        ensures { result.now ≡ (file_of self.now.files file).bytes }
    {
        self.bound[file as usize].bytes.as_slice()
    }

    /// Gives the bytes of a bound file from a place on, as many as there are and fit.
    pub(crate) fn read_at(&self, file: u32, from: u32, into: &mut [u8]) -> usize
        requires { file < length self.now.files }
        ensures count { result ≡ length (part (file_of self.now.files file).bytes from (length into.old)) }
        ensures bytes { into.new ≡ part (file_of self.now.files file).bytes from (length into.old) ++ drop result into.old }
    {
        self.bound[file as usize].read(from, into)
    }

    /// Writes the bytes at a place of a bound file; zeros fill a gap before them.
    pub(crate) fn write_at(&mut self, file: u32, from: u32, bytes: &[u8])
        requires named { file < length self.old.files }
        requires within { from + length bytes.now ≤ FILE_BYTES }
        ensures { self.new ≡ record self.old { files = written self.old.files file from bytes.now } }
    {
        self.bound[file as usize].write(from, bytes);
    }
}
