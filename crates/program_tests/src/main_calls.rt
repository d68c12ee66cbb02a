//! The top call over objects in memory.

ghost use Rattle.std.specs.Prelude.{◌≡◌, [], IfOk, IsTrue, None, is_some};

use crate::holding::{Hold, HoldingGate};
use ac_base::List;
use ac_outside::{
    Disk, DiskFail, Failed, Library, MemoryDisk, MemoryLibrary, MemorySink, NamedBytes, SafeDisk,
    SafeLibrary, SafeSink, Sink,
};
use ac_program::ac_main;
use std::alloc::{AllocError, Global};
use std::test::Fail;
use std::thread::Threads;

// The words of a command line.
fn words_of(alloc: Global, words: &[&str]) -> Result<Vec<String>, AllocError> {
    let mut owned = Vec::new(alloc);
    for word in words {
        owned.push(String::from_str(alloc, word)?)?;
    }
    Ok(owned)
}

// The one file of this name.
fn one_file(alloc: Global, name: &str, bytes: &[u8]) -> Result<List<NamedBytes>, AllocError> {
    let mut files = Vec::new(alloc);
    files.push(NamedBytes {
        name: List::from_vec(Vec::from_slice(alloc, name.as_bytes())?),
        bytes: List::from_vec(Vec::from_slice(alloc, bytes)?),
    })?;
    Ok(List::from_vec(files))
}

// The status of a call, and whether it keeps a run. This is the one call of `ac_main`: each such call
// is proved through all its clauses, on each way out of the function in which it stands.
fn called<L: Library, K: Sink, D: Disk + Send, R: Threads + Sync>(
    rt: &R,
    alloc: Global,
    words: &[String],
    library: &mut L,
    sink: &mut K,
    disk: &mut D,
    gate: &HoldingGate<'_>,
) -> (u8, bool)
    requires ready { IsTrue (D.told disk.old).is_ready }
    requires none { (D.told disk.old).bound ≡ 0 }
{
    let outcome = ac_main(rt, alloc, words, library, sink, disk, gate);
    (outcome.status.number, outcome.run.is_some())
}

/// The outside of a call, whose text is `x.ac`.
#[derive(Clone, Copy)]
pub(crate) struct Outside<'a> {
    pub(crate) text: &'a str,
    /// The number of the call of the library that fails; opening is 0.
    pub(crate) library_fails: u64,
    pub(crate) room: u64,
    /// The bytes of the file `p`.
    pub(crate) file: &'a [u8],
    /// The number of the call of the disk that fails.
    pub(crate) disk_fails: u64,
    /// How many bytes went in before, where that is a write.
    pub(crate) taken: u32,
    /// How its parties are held.
    pub(crate) holds: &'a [Hold],
}

/// No call fails, all is taken, the text and the file are empty, and nobody is held.
pub(crate) const WELL: Outside<'static> = Outside {
    text: "",
    library_fails: 999,
    room: 999,
    file: b"",
    disk_fails: 999,
    taken: 0,
    holds: &[],
};

/// What a call came to: its status, whether it keeps a run, what the sink took, what the file `p` holds
/// if it was bound, how many texts were opened and how many calls of the disk were made, and whether a
/// party was held for longer than it may be.
#[derive(Drop)]
pub(crate) struct Left {
    pub(crate) status: u8,
    pub(crate) ran: bool,
    pub(crate) taken: Vec<u8>,
    pub(crate) file: Vec<u8>,
    pub(crate) opens: u64,
    pub(crate) calls: u64,
    pub(crate) limit_met: bool,
}

fn library(alloc: Global, outside: &Outside) -> Result<MemoryLibrary, Fail> {
    let texts = one_file(alloc, "x.ac", outside.text.as_bytes())?;
    let fails = Vec::from_slice(alloc, &[outside.library_fails])?;
    let library = MemoryLibrary::new(texts, List::from_vec(fails))?;
    Ok(library)
}

fn disk(alloc: Global, outside: &Outside) -> Result<MemoryDisk, Fail>
    ensures { IfOk result (λ disk. IsTrue disk.stored.is_ready × (disk.stored.files ≡ [])) }
{
    let mut fails = Vec::new(alloc);
    fails.push(DiskFail {
        call: outside.disk_fails,
        taken: outside.taken,
    })?;
    let disk = MemoryDisk::new(one_file(alloc, "p", outside.file)?, List::from_vec(fails))?;
    Ok(disk)
}

// What the file `p` holds, if it was bound.
fn file_of(alloc: Global, disk: &MemoryDisk) -> Result<Vec<u8>, AllocError> {
    if disk.bound() == 1 {
        Vec::from_slice(alloc, disk.contents(0))
    } else {
        Ok(Vec::new(alloc))
    }
}

// What a call of this status left of these objects.
fn left_by(
    alloc: Global,
    (status, ran): (u8, bool),
    library: &MemoryLibrary,
    sink: &MemorySink,
    disk: &MemoryDisk,
    gate: &HoldingGate<'_>,
) -> Result<Left, AllocError> {
    Ok(Left {
        status,
        ran,
        taken: Vec::from_slice(alloc, sink.taken())?,
        file: file_of(alloc, disk)?,
        opens: library.opens(),
        calls: disk.calls(),
        limit_met: gate.limit_met(),
    })
}

/// The call of these words.
pub(crate) fn call<R: Threads + Sync>(
    rt: &R,
    alloc: Global,
    words: &[&str],
    outside: &Outside,
) -> Result<Left, Fail> {
    let words = words_of(alloc, words)?;
    let gate = HoldingGate::new(outside.holds);
    let mut sink = MemorySink::new(alloc, outside.room)?;
    let mut library = library(alloc, outside)?;
    let mut disk = disk(alloc, outside)?;
    let ended = called(
        rt,
        alloc,
        words.as_slice(),
        &mut library,
        &mut sink,
        &mut disk,
        &gate,
    );
    Ok(left_by(alloc, ended, &library, &sink, &disk, &gate)?)
}

// A library that gives one byte at a time.
#[derive(Drop)]
struct Drops {
    inner: SafeLibrary,
}

impl Library for Drops {
    ghost told = { λ s.
        record { text_at = λ _. None; is_open = is_some s.inner.left; left = None; opens = None; reads = None; names = None; faults = 0 } };

    ghost tells_opens = { λ _ _ told. told };

    ghost tells_reads = { λ _ _ told. told };

    fn open_text(&mut self, name: &str) -> Result<(), Failed> {
        self.inner.open_text(name)
    }

    fn read(&mut self, into: &mut [u8]) -> Result<usize, Failed> {
        let size = into.len().min(1);
        self.inner.read(&mut into[..size])
    }
}

// A sink that takes one byte at a time.
#[derive(Drop)]
struct Sips {
    inner: SafeSink,
}

impl Sink for Sips {
    ghost told = { λ _. record { held = None; faults = 0 } };

    fn write(&mut self, piece: &[u8]) -> Result<usize, Failed> {
        let size = piece.len().min(1);
        self.inner.write(&piece[..size])
    }
}

const READS: &str =
    "core a(f); file p(\"p\"); async void f() { int b[2]; Read(p, 0, 2, b); Write(p, 2, 2, b); printf(\"%d\\n\", b[1]); }";

// Whether a run whose text comes and goes byte by byte is the whole one. Steps: declaration, read, write,
// printf: 4. Instructions: declaration 2, read 6, write 6, printf 5, end 2: 21.
fn goes_byte_by_byte<R: Threads + Sync>(rt: &R, alloc: Global) -> Result<bool, Fail> {
    let words = words_of(alloc, &["run", "x.ac"])?;
    let gate = HoldingGate::new(&[]);
    let mut sink = Sips {
        inner: SafeSink::new(alloc)?,
    };
    let mut library = Drops {
        inner: SafeLibrary::new(one_file(alloc, "x.ac", READS.as_bytes())?)?,
    };
    let mut disk = SafeDisk::new(one_file(alloc, "p", b"AB")?)?;
    let ended = called(
        rt,
        alloc,
        words.as_slice(),
        &mut library,
        &mut sink,
        &mut disk,
        &gate,
    );
    Ok(
        ended == (0, true)
            && sink.inner.taken() == b"a: finished after 4 steps, 21 instructions\n66\n".as_slice(),
    )
}

#[test]
fn a_text_that_comes_and_goes_byte_by_byte_is_whole(rt: HostRuntime) -> Result<(), Fail> {
    assert!(rt; goes_byte_by_byte(&rt, rt.alloc())?);
    Ok(())
}
