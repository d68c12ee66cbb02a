//! The one call of the disk by which a request is done, in memory that was had before.

ghost use Rattle.std.specs.Prelude.{◌≡◌, ◌<◌, ◌≤◌, OnOk, IsTrue, length, take, true};
ghost use Rattle.ac_base.specs.declared.entry.Answer.TheVariants.{Count, Fault};
ghost use Rattle.ac_base.specs.declared.entry.Payload.TheVariants.{Read, Write};
ghost use Rattle.ac_links.specs.Payloads.{is_request};
ghost use Rattle.file_ops.specs.Asked.{Asked, Called};
ghost use Rattle.file_worker.specs.inner.Copies.{AreBoth, HasRoom};

use ac_base::{Answer, Bytes, List, NoMemory, Payload};
use ac_outside::Disk;
use std::alloc::Global;
use std::mem::replace;

/// The most bytes of a request.
const MOST: usize = 256;

/// Two equal answers: for the journal, and for the ring.
#[derive(Drop)]
pub(crate) struct Answers {
    pub(crate) journal: Answer,
    pub(crate) ring: Answer,
}

/// The disk failed after so many bytes, or was not asked.
fn faults(taken: u32) -> Answers
    ensures { AreBoth (Fault taken) result }
{
    Answers {
        journal: Answer::Fault(taken),
        ring: Answer::Fault(taken),
    }
}

// So many bytes were written.
fn counts(count: u32) -> Answers
    ensures { AreBoth (Count count) result }
{
    Answers {
        journal: Answer::Count(count),
        ring: Answer::Count(count),
    }
}

/// Memory for the bytes of one read, in each of its two answers.
#[derive(Drop)]
pub(crate) struct Buffers {
    pub(crate) alloc: Global,
    pub(crate) journal: Vec<u8>,
    pub(crate) ring: Vec<u8>,
}

impl Buffers {
    pub(crate) fn new(alloc: Global) -> Buffers {
        Buffers {
            alloc,
            journal: Vec::new(alloc),
            ring: Vec::new(alloc),
        }
    }

    /// Makes room for the bytes of any read.
    pub(crate) fn fill(&mut self) -> Result<(), NoMemory>
        ensures { OnOk result (HasRoom self.new) }
    {
        self.journal.resize(MOST, 0)?;
        self.ring.resize(MOST, 0)?;
        Ok(())
    }

    fn take_journal(&mut self) -> Vec<u8>
        ensures bytes { result.items ≡ self.old.journal.items }
        ensures ring { self.new.ring ≡ self.old.ring }
    {
        replace(&mut self.journal, Vec::new(self.alloc))
    }

    fn take_ring(&mut self) -> Vec<u8>
        ensures { result.items ≡ self.old.ring.items }
    {
        replace(&mut self.ring, Vec::new(self.alloc))
    }
}

// These bytes, in memory that was had before.
fn put_into(mut room: Vec<u8>, bytes: &[u8]) -> Bytes
    requires { length bytes.now ≤ length room.items }
    ensures { result ≡ bytes.now }
{
    room.truncate(bytes.len());
    room.copy_from_slice(bytes);
    List::from_vec(room)
}

// The first bytes of the first buffer, in both answers.
fn first_bytes(mut journal: Vec<u8>, ring: Vec<u8>, count: usize) -> Answers
    requires room { length journal.items ≤ length ring.items }
    requires count { count ≤ length journal.items }
    ensures { AreBoth (Answer.Bytes (take count journal.items)) result }
{
    journal.truncate(count);
    Answers {
        ring: Answer::Bytes(put_into(ring, journal.as_slice())),
        journal: Answer::Bytes(List::from_vec(journal)),
    }
}

// Reads so many bytes of a bound file.
fn read<D: Disk>(disk: &mut D, file: u32, from: u32, len: u32, room: &mut Buffers) -> Answers
    requires ready { IsTrue (D.told disk.old).is_ready }
    requires request { is_request (Read file from len) ≡ true }
    requires bound { file < (D.told disk.old).bound }
    requires room { HasRoom room.old }
    ensures same { AreBoth result.journal result }
    ensures called { Called (D.told disk.old) (D.told disk.new) (Read file from len) result.journal }
{
    let mut journal = room.take_journal();
    let ring = room.take_ring();
    journal.truncate(len as usize);
    match disk.read_at(file, from, journal.as_mut_slice()) {
        Ok(count) => first_bytes(journal, ring, count),
        Err(_) => faults(0),
    }
}

// Writes these bytes to a bound file.
fn write<D: Disk>(disk: &mut D, file: u32, from: u32, bytes: &Bytes) -> Answers
    requires ready { IsTrue (D.told disk.old).is_ready }
    requires request { is_request (Write file from bytes.now) ≡ true }
    requires bound { file < (D.told disk.old).bound }
    ensures same { AreBoth result.journal result }
    ensures called { Called (D.told disk.old) (D.told disk.new) (Write file from bytes.now) result.journal }
{
    match disk.write_at(file, from, bytes.as_slice()) {
        Ok(()) => counts(bytes.len() as u32),
        Err(torn) => faults(torn.taken),
    }
}

/// Asks the disk for what the payload requests: one call where its file is bound, and none where it
/// is not.
pub(crate) fn ask<D: Disk>(disk: &mut D, payload: &Payload, room: &mut Buffers) -> Answers
    requires ready { IsTrue (D.told disk.old).is_ready }
    requires request { is_request payload.now ≡ true }
    requires room { HasRoom room.old }
    ensures same { AreBoth result.journal result }
    ensures asked { Asked (D.told disk.old) (D.told disk.new) payload.now result.journal }
{
    match payload {
        Payload::Int(_) => faults(0),
        Payload::Read { file, from, len } => {
            if *file < disk.bound() {
                read(disk, *file, *from, *len, room)
            } else {
                faults(0)
            }
        }
        Payload::Write { file, from, bytes } => {
            if *file < disk.bound() {
                write(disk, *file, *from, bytes)
            } else {
                faults(0)
            }
        }
    }
}
