//! The files of a run, and what a request makes of them.

ghost use Rattle.std.specs.Prelude.{◌≡◌, ◌<◌, [], take, drop, slice_get, slice_set, IfOk, Some};
ghost use Rattle.ac_history.specs.Files.{file_of, padded, bytes_in, reads, serves};

use ac_base::{Answer, Bytes, List, NoMemory, Payload};
use std::alloc::Global;
use std::marker::Model;
use std::mem;

// Equal bytes of each file.
fn copies(alloc: Global, files: &[Bytes]) -> Result<Vec<Bytes>, NoMemory>
    ensures { IfOk result (λ it. it.items ≡ files.now) }
{
    let mut all = Vec::new(alloc);
    for file in files {
        all.push(file.copy(alloc)?)?;
    }
    Ok(all)
}

// All sixteen files: those that there are not are empty.
fn padded(alloc: Global, files: Vec<Bytes>) -> Result<Vec<Bytes>, NoMemory>
    ensures { IfOk result (λ it. it.items ≡ padded files.items) }
{
    let missing = 16usize.saturating_sub(files.len());
    let mut all = files;
    for _file in 0..missing {
        all.push(List::new(alloc))?;
    }
    Ok(all)
}

/// The bytes of a write that went in.
pub fn bytes_in<'a>(answer: &Answer, bytes: &'a [u8]) -> &'a [u8]
    ensures { result.now ≡ bytes_in answer.now bytes.now }
{
    match answer {
        Answer::Bytes(_) => &[],
        Answer::Count(_) => bytes,
        Answer::Fault(count) => &bytes[..bytes.len().min(*count as usize)],
    }
}

// What stands at a place of the file, as much as there is up to the length.
fn part(file: &[u8], from: u32, len: u32) -> &[u8]
    ensures { result.now ≡ take len (drop from file.now) }
{
    let rest = &file[file.len().min(from as usize)..];
    &rest[..rest.len().min(len as usize)]
}

fn reads(file: &[u8], from: u32, len: u32, answer: &Answer) -> bool
    ensures { result ≡ reads file.now from len answer.now }
{
    match answer {
        Answer::Bytes(bytes) => bytes.as_slice() == part(file, from, len),
        Answer::Count(_) => true,
        Answer::Fault(_) => true,
    }
}

/// The files of a run.
#[derive(Debug, Drop)]
pub struct Files {
    files: Vec<Bytes>,
}

impl Model for Files {
    ghost use Rattle.std.specs.Prelude.{List, ℕ, ◌≤◌, length};

    ghost Value = { List (List ℕ) };

    ghost view = { λ it. it.files.items };

    ghost invariant = { λ it. 16 ≤ length it.files.items };
}

impl Files {
    /// Files of these bytes, and further ones, up to sixteen, that are empty.
    pub fn new(alloc: Global, start: &List<Bytes>) -> Result<Files, NoMemory>
        ensures { IfOk result (λ it. it ≡ padded start.now) }
    {
        let files = copies(alloc, start.as_slice())?;
        Ok(Files {
            files: padded(alloc, files)?,
        })
    }

    /// The bytes of one of the sixteen files.
    pub fn contents(&self, file: u32) -> &Bytes
        requires { file < 16 }
        ensures { slice_get self.now file ≡ Some result.now }
    {
        &self.files[file as usize]
    }

    // The bytes of a file; those of a file that there is not are none.
    fn file(&self, file: u32) -> &[u8]
        ensures { result.now ≡ file_of self.now file }
    {
        match self.files.get(file as usize) {
            Some(bytes) => bytes.as_slice(),
            None => &[],
        }
    }

    /// Whether a read was given what stands there.
    pub fn serves(&self, payload: &Payload, answer: &Answer) -> bool
        ensures { result ≡ serves self.now payload.now answer.now }
    {
        match payload {
            Payload::Int(_) => true,
            Payload::Read { file, from, len } => reads(self.file(*file), *from, *len, answer),
            Payload::Write { .. } => true,
        }
    }

    /// Takes the bytes of a file out, and leaves none.
    pub fn take(&mut self, alloc: Global, file: u32) -> Bytes
        ensures bytes { result ≡ file_of self.old file }
        ensures files { self.new ≡ slice_set self.old file [] }
    {
        match self.files.get_mut(file as usize) {
            Some(bytes) => mem::replace(bytes, List::new(alloc)),
            None => List::new(alloc),
        }
    }

    /// Makes these the bytes of a file, if there is one of this number.
    pub fn put(&mut self, file: u32, bytes: Bytes)
        ensures { self.new ≡ slice_set self.old file bytes }
    {
        if let Some(old) = self.files.get_mut(file as usize) {
            *old = bytes;
        }
    }
}
