//! Rebuilding one side of a mirror from the other.

ghost use Rattle.std.specs.Prelude.{◌≡◌, ◌≢◌, ◌+◌, ◌<◌, ◌≤◌, ◌||◌, true, false, None, ℕ};
ghost use Rattle.std.specs.Prelude.{length, map, slice_index, string_bytes, AllPairs, IfSome, IsFalse, IsTrue};
ghost use Rattle.ac_mirror_disk.specs.Rebuilding.{AreShort, IsFirstLonger, IsNoneLonger, Rebuilds, alike_after, ready_after};
ghost use Rattle.ac_mirror_disk.specs.inner.Copying.{BindsRest, Copies, CopiesFile, CopiesFiles, MayCopy};
ghost use Rattle.ac_mirror_disk.specs.inner.Restoring.{RebuildsSides, Restores};
ghost use Rattle.ac_mirror_disk.specs.Sound.{IsKept};

use crate::comparing::PIECE;
use crate::room::Room;
use crate::side::Side;
use ac_outside::{BindFault, Disk, FILE_BYTES};

/// What a rebuilding came to.
#[derive(Clone, Copy, Debug, PartialEq, Eq)]
pub enum Rebuilt {
    /// Both sides are in use.
    Both,
    /// A call of a side failed.
    Fault,
    /// The file of this number is longer on the side that is not in use.
    Longer { file: u32 },
    /// A bind was refused memory.
    NoMemory,
}

// Binds the files that the side has not bound yet.
#[tactic(auto, using(crate::proofs::OnlyBound::binds_none, crate::proofs::OnlyBound::binds_on))]
fn bind_rest<T: Disk>(t: &mut Side<T>, paths: &[String]) -> Result<(), BindFault>
    requires kept { IsKept T.told t.old (map string_bytes paths.now) }
    requires out { t.old.in_use ≡ false }
    requires few { length paths.now ≤ 16 }
    requires differ { AllPairs (λ path other. path ≢ other) (map string_bytes paths.now) }
    ensures { BindsRest T.told t.old t.new (map string_bytes paths.now) result }
{
    for place in t.disk.bound() as usize..paths.len() {
        t.bind_next(paths[place].as_str())?;
    }
    Ok(())
}

// Whether each of so many files is short enough to be read.
fn are_short(lens: &[u32; 16], count: usize) -> bool
    requires { count ≤ 16 }
    ensures short { IsTrue result → AreShort lens.now count }
    ensures long { IsFalse result → AreShort lens.now count → ⊥ }
{
    for file in 0..count {
        if lens[file] as usize > FILE_BYTES {
            return false;
        }
    }
    true
}

/// Whether the files of a side may be copied to the other, where the other is not in use.
pub(crate) fn may_copy_all(lens: &[u32; 16], count: usize, other_in_use: bool) -> bool
    requires { count ≤ 16 }
    ensures yes { IsTrue result → other_in_use ≡ false → AreShort lens.now count }
    ensures no { IsFalse result → (other_in_use ≡ false → AreShort lens.now count) → ⊥ }
{
    if other_in_use {
        true
    } else {
        are_short(lens, count)
    }
}

// The first of so many files whose length is greater.
fn first_longer(lens: &[u32; 16], others: &[u32; 16], count: usize) -> Option<u32>
    requires { count ≤ 16 }
    ensures some { IfSome result (IsFirstLonger lens.now others.now count) }
    ensures none { result ≡ None → IsNoneLonger lens.now others.now count }
{
    for file in 0..count {
        if others[file] > lens[file] {
            return Some(file as u32);
        }
    }
    None
}

// Copies a piece of a file.
fn copy_piece<S: Disk, T: Disk>(
    s: &mut Side<S>,
    t: &mut Side<T>,
    file: u32,
    from: u32,
    piece: &mut [u8],
) -> bool
    requires may { MayCopy S.told T.told s.old t.old file }
    requires within { from + length piece.old ≤ FILE_BYTES }
    ensures { Copies S.told T.told s.old s.new t.old t.new file from (length piece.old) result }
{
    let Ok(count) = s.disk.read_at(file, from, piece) else {
        return false;
    };
    t.write_now(file, from, &piece[..count]).is_ok()
}

// Copies a file, piece by piece.
fn copy_file<S: Disk, T: Disk>(
    s: &mut Side<S>,
    t: &mut Side<T>,
    file: u32,
    piece: &mut [u8],
) -> bool
    requires may { MayCopy S.told T.told s.old t.old file }
    requires room { length piece.old ≡ 65536 }
    requires short { slice_index s.old.lens file ≤ FILE_BYTES }
    ensures { CopiesFile S.told T.told s.old s.new t.old t.new file result }
{
    let len = s.lens[file as usize];
    for number in 0..len.div_ceil(PIECE) {
        let from = number * PIECE;
        let want = PIECE.min(len - from) as usize;
        if !copy_piece(s, t, file, from, &mut piece[..want]) {
            return false;
        }
    }
    true
}

// Copies so many files.
fn copy_files<S: Disk, T: Disk>(
    s: &mut Side<S>,
    t: &mut Side<T>,
    count: usize,
    piece: &mut [u8],
) -> bool
    requires may { (file : ℕ) → file < count → MayCopy S.told T.told s.old t.old file }
    requires few { count ≤ 16 }
    requires room { length piece.old ≡ 65536 }
    requires short { (file : ℕ) → file < count → slice_index s.old.lens file ≤ FILE_BYTES }
    ensures { CopiesFiles S.told T.told s.old s.new t.old t.new count result }
{
    for file in 0..count {
        if !copy_file(s, t, file as u32, piece) {
            return false;
        }
    }
    true
}

// Copies all bound files.
fn copy_all<S: Disk, T: Disk>(
    s: &mut Side<S>,
    t: &mut Side<T>,
    paths: &[String],
    piece: &mut [u8],
) -> bool
    requires may { (file : ℕ) → file < length paths.now → MayCopy S.told T.told s.old t.old file }
    requires few { length paths.now ≤ 16 }
    requires room { length piece.old ≡ 65536 }
    requires short { AreShort s.old.lens (length paths.now) }
    ensures { CopiesFiles S.told T.told s.old s.new t.old t.new (length paths.now) result }
{
    copy_files(s, t, paths.len(), piece)
}

// Makes the side `t`, which is not in use, what the side `s` is.
fn rebuild_side<S: Disk, T: Disk>(
    s: &mut Side<S>,
    t: &mut Side<T>,
    paths: &[String],
    piece: &mut [u8],
    even: &mut bool,
) -> Rebuilt
    requires first { IsKept S.told s.old (map string_bytes paths.now) }
    requires second { IsKept T.told t.old (map string_bytes paths.now) }
    requires in_use { s.old.in_use ≡ true }
    requires out { t.old.in_use ≡ false }
    requires few { length paths.now ≤ 16 }
    requires differ { AllPairs (λ path other. path ≢ other) (map string_bytes paths.now) }
    requires room { length piece.old ≡ 65536 }
    requires short { AreShort s.old.lens (length paths.now) }
    ensures rebuilds { Rebuilds S.told T.told s.old s.new t.old t.new (length paths.now) result }
    ensures restores { result ≢ Rebuilt.NoMemory →
        Restores S.told T.told s.old s.new t.old t.new (map string_bytes paths.now) even.old even.new }
{
    match bind_rest(t, paths) {
        Err(BindFault::NoMemory) => return Rebuilt::NoMemory,
        Err(BindFault::Failed) => {
            *even = false;
            return Rebuilt::Fault;
        }
        Ok(()) => {}
    }
    if let Some(file) = first_longer(&s.lens, &t.lens, paths.len()) {
        return Rebuilt::Longer { file };
    }
    if copy_all(s, t, paths, piece) {
        t.in_use = true;
        Rebuilt::Both
    } else {
        Rebuilt::Fault
    }
}

/// Makes the side that is not in use what the other is.
pub(crate) fn rebuild_sides<A: Disk, B: Disk>(
    a: &mut Side<A>,
    b: &mut Side<B>,
    paths: &[String],
    room: &mut Room,
    even: &mut bool,
) -> Rebuilt
    requires first { IsKept A.told a.old (map string_bytes paths.now) }
    requires second { IsKept B.told b.old (map string_bytes paths.now) }
    requires some { IsTrue (a.old.in_use || b.old.in_use) }
    requires few { length paths.now ≤ 16 }
    requires differ { AllPairs (λ path other. path ≢ other) (map string_bytes paths.now) }
    requires short_a { b.old.in_use ≡ false → AreShort a.old.lens (length paths.now) }
    requires short_b { a.old.in_use ≡ false → AreShort b.old.lens (length paths.now) }
    ensures { RebuildsSides A.told B.told a.old a.new b.old b.new (map string_bytes paths.now) even.old even.new result }
{
    if a.in_use {
        if b.in_use {
            Rebuilt::Both
        } else {
            rebuild_side(a, b, paths, room.first.as_mut_slice(), even)
        }
    } else {
        rebuild_side(b, a, paths, room.first.as_mut_slice(), even)
    }
}

/// Whether both sides still tell the same, after a rebuilding.
pub(crate) fn stays_alike(rebuilt: Rebuilt, alike: bool, even: bool) -> bool
    ensures { result ≡ alike_after rebuilt alike even }
{
    match rebuilt {
        Rebuilt::Both => alike && even,
        Rebuilt::Fault => alike,
        Rebuilt::Longer { .. } => alike,
        Rebuilt::NoMemory => alike,
    }
}

/// Whether a mirror may be called after a rebuilding.
pub(crate) fn stays_ready(rebuilt: Rebuilt) -> bool
    ensures { result ≡ ready_after rebuilt }
{
    match rebuilt {
        Rebuilt::NoMemory => false,
        Rebuilt::Both => true,
        Rebuilt::Fault => true,
        Rebuilt::Longer { .. } => true,
    }
}
