//! A call over two devices, and what it leaves as plain values. No device is held where anything else may
//! fail: each way out of a function drops all that it holds, and that is what its proof costs.

ghost use Rattle.std.specs.Prelude.{◌≡◌, [], IfOk, IsTrue};

use ac_adapters::OpenGate;
use ac_base::List;
use ac_mirror_disk::{MirrorDisk, Prefixed, Rebuilt};
use ac_outside::{Disk, DiskFail, MemoryDisk, MemoryLibrary, MemorySink, NamedBytes};
use mirror_program::mirror_main;
use std::alloc::{AllocError, Global};
use std::test::Fail;
use std::thread::Threads;

/// The mirror of a call.
pub(crate) type Mirror<A, B> = MirrorDisk<Prefixed<A>, Prefixed<B>>;

fn one_file(alloc: Global, name: &str, bytes: Vec<u8>) -> Result<List<NamedBytes>, AllocError> {
    let name = List::from_vec(Vec::from_slice(alloc, name.as_bytes())?);
    let bytes = List::from_vec(bytes);
    let mut files = Vec::new(alloc);
    files.push(NamedBytes { name, bytes })?;
    Ok(List::from_vec(files))
}

/// The words of a command line.
pub(crate) fn words_of(alloc: Global, words: &[&str]) -> Result<Vec<String>, AllocError> {
    let mut owned = Vec::new(alloc);
    for word in words {
        owned.push(String::from_str(alloc, word)?)?;
    }
    Ok(owned)
}

/// The library whose one text is `x.ac`.
pub(crate) fn library(alloc: Global, program: &str) -> Result<MemoryLibrary, Fail> {
    let texts = one_file(alloc, "x.ac", Vec::from_slice(alloc, program.as_bytes())?)?;
    let library = MemoryLibrary::new(texts, List::new(alloc))?;
    Ok(library)
}

/// The status of a call, and the mirror. This is the one call of `mirror_main`: each such call is proved
/// through all its clauses.
pub(crate) fn called<R: Threads + Sync, A: Disk + Send + Drop, B: Disk + Send + Drop>(
    rt: &R,
    alloc: Global,
    words: &[String],
    library: &mut MemoryLibrary,
    sink: &mut MemorySink,
    a: A,
    b: B,
) -> (u8, Option<Mirror<A, B>>)
    requires ready { IsTrue (A.told a).is_ready × IsTrue (B.told b).is_ready }
    requires none { ((A.told a).bound ≡ 0) × ((B.told b).bound ≡ 0) }
{
    let gate = OpenGate::new();
    let (outcome, mirror) = mirror_main(rt, alloc, words, library, sink, a, b, false, &gate);
    (outcome.status.number, mirror)
}

/// What so many rebuildings answer at last, each where it may be asked for, and which sides are in use
/// then.
pub(crate) fn rebuilt<A: Disk, B: Disk>(
    mirror: &mut Mirror<A, B>,
    times: u32,
) -> (Option<Rebuilt>, (bool, bool)) {
    let mut answer = None;
    for _ in 0..times {
        answer = if mirror.may_rebuild() {
            Some(mirror.rebuild())
        } else {
            None
        };
    }
    (answer, mirror.in_use())
}

/// A disk in memory: the path and the bytes of its one file, the numbers of the calls that fail, and how
/// many bytes of a write go in before.
#[derive(Clone, Copy)]
pub(crate) struct Device<'a> {
    pub(crate) path: &'a str,
    pub(crate) bytes: &'a str,
    pub(crate) fails: &'a [u64],
    pub(crate) taken: u32,
}

/// A program over two devices, how often they are rebuilt afterwards, and what is due then: what is
/// written, and what the bound files of each device hold, with a stroke behind each.
#[derive(Clone, Copy)]
pub(crate) struct Case<'a> {
    pub(crate) program: &'a str,
    pub(crate) a: Device<'a>,
    pub(crate) b: Device<'a>,
    pub(crate) times: u32,
    pub(crate) line: &'a str,
    pub(crate) first: &'a str,
    pub(crate) second: &'a str,
}

/// What a mirror came to: what was answered to the last rebuilding, which sides are in use, and whether
/// each device holds what is due.
#[derive(Clone, Copy)]
pub(crate) struct Sides {
    pub(crate) rebuilt: Option<Rebuilt>,
    pub(crate) in_use: (bool, bool),
    pub(crate) are_held: bool,
}

// The disk of a device.
fn disk(alloc: Global, device: &Device) -> Result<MemoryDisk, Fail>
    ensures { IfOk result (λ disk. IsTrue disk.stored.is_ready × (disk.stored.files ≡ [])) }
{
    let mut fails = Vec::new(alloc);
    for call in device.fails {
        let taken = device.taken;
        fails.push(DiskFail { call: *call, taken })?;
    }
    let bytes = Vec::from_slice(alloc, device.bytes.as_bytes())?;
    let files = one_file(alloc, device.path, bytes)?;
    let disk = MemoryDisk::new(files, List::from_vec(fails))?;
    Ok(disk)
}

// Whether the bound files of a disk hold this, with a stroke behind each.
fn is_held(disk: &MemoryDisk, text: &str) -> bool {
    let mut rest = text.as_bytes();
    for file in 0..disk.bound() {
        let bytes = disk.contents(file);
        let count = bytes.len();
        if count >= rest.len() || &rest[..count] != bytes || rest[count] != b'|' {
            return false;
        }
        rest = &rest[count + 1..];
    }
    rest.len() == 0
}

// What the mirror of a case comes to.
fn come_to(mirror: &mut Mirror<MemoryDisk, MemoryDisk>, case: &Case) -> Sides {
    let (rebuilt, in_use) = rebuilt(mirror, case.times);
    let first = is_held(mirror.first().disk(), case.first);
    let second = is_held(mirror.second().disk(), case.second);
    Sides {
        rebuilt,
        in_use,
        are_held: first && second,
    }
}

// The status, and what the mirror came to, of a call over the two devices.
fn over_devices<R: Threads + Sync>(
    rt: &R,
    alloc: Global,
    words: &[String],
    library: &mut MemoryLibrary,
    sink: &mut MemorySink,
    case: &Case,
) -> Result<(u8, Option<Sides>), Fail> {
    let a = disk(alloc, &case.a)?;
    let b = disk(alloc, &case.b)?;
    let (status, mirror) = called(rt, alloc, words, library, sink, a, b);
    let Some(mut mirror) = mirror else {
        return Ok((status, None));
    };
    Ok((status, Some(come_to(&mut mirror, case))))
}

/// The status of a case, whether what is due was written, and what its mirror came to.
pub(crate) fn run<R: Threads + Sync>(
    rt: &R,
    alloc: Global,
    case: &Case,
) -> Result<(u8, bool, Option<Sides>), Fail> {
    let words = words_of(alloc, &["a/", "b/", "run", "x.ac"])?;
    let mut library = library(alloc, case.program)?;
    let mut sink = MemorySink::new(alloc, 999)?;
    let (status, sides) = over_devices(rt, alloc, words.as_slice(), &mut library, &mut sink, case)?;
    Ok((status, sink.taken() == case.line.as_bytes(), sides))
}

/// Whether a run of a case wrote what is due and left this.
pub(crate) fn is_of(
    left: (u8, bool, Option<Sides>),
    status: u8,
    rebuilt: Option<Rebuilt>,
    in_use: (bool, bool),
) -> bool {
    match left {
        (came, true, Some(sides)) => {
            came == status && sides.rebuilt == rebuilt && sides.in_use == in_use && sides.are_held
        }
        _ => false,
    }
}

/// Four writes of eight bytes.
pub(crate) const WRITES: &str =
    "core a(f); file p(\"p.dat\"); async void f() { int b[8]; int i; int r; for (i = 0; i < 8; \
    i = i + 1) b[i] = 65; for (i = 0; i < 4; i = i + 1) { r = Write(p, i * 8, 8, b); \
    printf(\"%d \", r); } }";

/// A read and a write.
pub(crate) const READS: &str =
    "core a(f); file p(\"p.dat\"); async void f() { int b[256]; int r; r = Read(p, 4, 256, b); \
    printf(\"%d %d %d\\n\", r, b[0], b[5]); b[0] = 65; r = Write(p, 12, 1, b); }";

/// A write to each of two files, and a read of the first.
pub(crate) const PAIR: &str =
    "core a(f); file p(\"p.dat\"); file q(\"q.dat\"); async void f() { int b[2]; int r; int s; int t; \
    b[0] = 65; r = Write(p, 0, 1, b); s = Write(q, 0, 2, b); t = Read(p, 0, 1, b); \
    printf(\"%d %d %d\", r, s, t); }";

/// No file.
pub(crate) const PRINTS: &str = "core a(f); async void f() { printf(\"%d\\n\", 1+2*3); }";

/// What is written of the first program, where no write fails, and where the third does.
pub(crate) const WROTE: &str = "a: finished after 47 steps, 242 instructions\n8 8 8 8 \n";

pub(crate) const NOT_3: &str = "a: finished after 47 steps, 242 instructions\n8 8 -2 8 \n";

/// What the second finds in its file, and what is written of it.
pub(crate) const TEN: &str = "0123456789";

pub(crate) const READ: &str = "a: finished after 6 steps, 33 instructions\n6 52 57\n";

/// What is written of the third: declarations 4, assignment 1, writes 2, read 1, printf 1: 9 steps; 2, 3x3,
/// 5, 3x6, 5 and 2 at the end: 41 instructions.
pub(crate) const BOTH: &str = "a: finished after 9 steps, 41 instructions\n1 2 1\n";

/// Which sides are in use.
pub(crate) const EACH: (bool, bool) = (true, true);

pub(crate) const FIRST: (bool, bool) = (true, false);

pub(crate) const SECOND: (bool, bool) = (false, true);
