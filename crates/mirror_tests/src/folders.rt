//! Folders of the system as the two devices.

use crate::calls::{EACH, Mirror, SECOND, WRITES, called, library, rebuilt, words_of};
use ac_adapters::FileDisk;
use ac_mirror_disk::Rebuilt;
use ac_outside::{Disk, MemoryLibrary, MemorySink};
use std::alloc::Global;
use std::fs;
use std::os::unix::fs::FileExt;
use std::rt::Files;
use std::test::Fail;

// The status of a call over two folders, which sides are in use after it, and what a rebuilding answers,
// with the sides then.
type Ends = (u8, (bool, bool), (Option<Rebuilt>, (bool, bool)));

// What a mirror comes to, before whose rebuilding a folder is made.
fn ended<R: Files, A: Disk + Drop, B: Disk + Drop>(
    rt: &R,
    status: u8,
    mirror: Option<Mirror<A, B>>,
    folder: &str,
) -> Option<Ends> {
    let mut mirror = mirror?;
    let dropped = mirror.in_use();
    let _ = fs::create_dir(rt, folder);
    Some((status, dropped, rebuilt(&mut mirror, 1)))
}

// Nothing of a call is held any longer.
fn let_go(_words: Vec<String>, _library: MemoryLibrary, _sink: MemorySink) {}

// Whether a file holds so many bytes of 65.
fn has_written<R: Files>(rt: &R, alloc: Global, path: &str, count: usize) -> bool
where
    R::File: FileExt,
{
    let mut into = [0u8; 64];
    let mut disk = FileDisk::new(rt, alloc);
    let found = match disk.bind(0, path) {
        Ok(_) => disk.read_at(0, 0, &mut into).unwrap_or(0),
        Err(_) => 0,
    };
    found == count && into[..found].iter().all(|byte| *byte == b'A')
}

// The first folder is not there, so its side is dropped at the bind; then it is, and the side is rebuilt.
#[test]
fn a_folder_that_comes_back_is_rebuilt(rt: HostRuntime) -> Result<(), Fail> {
    fs::create_dir(&rt, "here")?;
    let words = words_of(rt.alloc(), &["gone/", "here/", "run", "x.ac"])?;
    let mut library = library(rt.alloc(), WRITES)?;
    let mut sink = MemorySink::new(rt.alloc(), 999)?;
    let (status, mirror) = called(
        &rt,
        rt.alloc(),
        words.as_slice(),
        &mut library,
        &mut sink,
        FileDisk::new(&rt, rt.alloc()),
        FileDisk::new(&rt, rt.alloc()),
    );
    let ends = ended(&rt, status, mirror, "gone");
    let_go(words, library, sink);
    assert!(rt; ends == Some((0, SECOND, (Some(Rebuilt::Both), EACH))));
    assert!(rt; has_written(&rt, rt.alloc(), "gone/p.dat", 32));
    for path in ["gone/p.dat", "here/p.dat"] {
        fs::remove_file(&rt, path)?;
    }
    for path in ["gone", "here"] {
        fs::remove_dir(&rt, path)?;
    }
    Ok(())
}

const FULL: &str = "core a(f); file p(\"full\"); async void f() { int b[1]; b[0] = 65; \
    Write(p, 0, 1, b); Write(p, 1, 1, b); }";

// Each write of a full device fails, and so does what would rebuild it.
#[test]
fn a_full_device_is_dropped(rt: HostRuntime) -> Result<(), Fail> {
    fs::create_dir(&rt, "room")?;
    let words = words_of(rt.alloc(), &["/dev/", "room/", "run", "x.ac"])?;
    let mut library = library(rt.alloc(), FULL)?;
    let mut sink = MemorySink::new(rt.alloc(), 999)?;
    let (status, mirror) = called(
        &rt,
        rt.alloc(),
        words.as_slice(),
        &mut library,
        &mut sink,
        FileDisk::new(&rt, rt.alloc()),
        FileDisk::new(&rt, rt.alloc()),
    );
    let ends = ended(&rt, status, mirror, "room");
    let_go(words, library, sink);
    assert!(rt; ends == Some((0, SECOND, (Some(Rebuilt::Fault), SECOND))));
    fs::remove_file(&rt, "room/full")?;
    fs::remove_dir(&rt, "room")?;
    Ok(())
}
