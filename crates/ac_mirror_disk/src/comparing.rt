//! Comparing a file on the two sides of a mirror.

ghost use Rattle.std.specs.Prelude.{◌≡◌, ◌≢◌, ◌⊎◌, ◌+◌, ◌-◌, ◌<◌, ◌≤◌, ◌&&◌, length, IsFalse, IsTrue};
ghost use Rattle.ac_mirror_disk.specs.Pairs.{Compares, ComparesOrNot};
ghost use Rattle.ac_mirror_disk.specs.inner.Callable.{BothLast, HasFile};
ghost use Rattle.ac_mirror_disk.specs.inner.Comparing.{ComparesSo, HaveSameFront, HaveSamePart};

use crate::side::Side;
use ac_outside::{Disk, FILE_BYTES};

/// How many bytes one call reads or writes at most.
pub(crate) const PIECE: u32 = 65_536;

/// What a comparison comes to.
#[derive(Clone, Copy, Debug, PartialEq, Eq)]
pub enum Compared {
    Same,
    Differ,
    /// A read of the first side failed.
    FirstFailed,
    /// A read of the second side failed.
    SecondFailed,
}

// Compares what stands at a place of a file, as much as fits, on the first side and then on the second.
fn compare_piece<A: Disk, B: Disk>(
    a: &mut A,
    b: &mut B,
    file: u32,
    from: u32,
    first: &mut [u8],
    second: &mut [u8],
) -> Compared
    requires ready { IsTrue (A.told a.old).is_ready × IsTrue (B.told b.old).is_ready }
    requires named { (file < (A.told a.old).bound) × (file < (B.told b.old).bound) }
    requires room { length first.old ≡ length second.old }
    requires within { from + length first.old ≤ FILE_BYTES }
    ensures { ComparesSo (A.told a.old) (A.told a.new) (B.told b.old) (B.told b.new) (HaveSamePart file from (length first.old)) file
        result }
{
    let Ok(one) = a.read_at(file, from, first) else {
        return Compared::FirstFailed;
    };
    let Ok(other) = b.read_at(file, from, second) else {
        return Compared::SecondFailed;
    };
    if first[..one] == second[..other] {
        Compared::Same
    } else {
        Compared::Differ
    }
}

// Compares two files of the same length, piece by piece.
fn compare_files<A: Disk, B: Disk>(
    a: &mut A,
    b: &mut B,
    file: u32,
    len: u32,
    first: &mut [u8],
    second: &mut [u8],
) -> Compared
    requires ready { IsTrue (A.told a.old).is_ready × IsTrue (B.told b.old).is_ready }
    requires named { (file < (A.told a.old).bound) × (file < (B.told b.old).bound) }
    requires room { (length first.old ≡ 65536) × (length second.old ≡ 65536) }
    requires within { len ≤ FILE_BYTES }
    ensures { ComparesSo (A.told a.old) (A.told a.new) (B.told b.old) (B.told b.new) (HaveSameFront file len) file result }
{
    for number in 0..len.div_ceil(PIECE) {
        let from = number * PIECE;
        let want = PIECE.min(len - from) as usize;
        match compare_piece(a, b, file, from, &mut first[..want], &mut second[..want]) {
            Compared::Same => {}
            Compared::Differ => return Compared::Differ,
            Compared::FirstFailed => return Compared::FirstFailed,
            Compared::SecondFailed => return Compared::SecondFailed,
        }
    }
    Compared::Same
}

// Whether two files of these lengths are different, or too long to be read.
fn are_unlike(len: u32, other: u32) -> bool
    ensures unlike { IsTrue result → (len ≢ other) ⊎ (FILE_BYTES < len) }
    ensures alike { IsFalse result → (len ≡ other) × (len ≤ FILE_BYTES) }
{
    len != other || len as usize > FILE_BYTES
}

// Compares a file that both sides have bound, and drops the second side where it differs or is too long
// to be read, and a side of which a read failed.
fn compare_both<A: Disk, B: Disk>(
    a: &mut Side<A>,
    b: &mut Side<B>,
    file: u32,
    first: &mut [u8],
    second: &mut [u8],
)
    requires one { HasFile A.told a.old file }
    requires other { HasFile B.told b.old file }
    requires room { (length first.old ≡ 65536) × (length second.old ≡ 65536) }
    requires in_use { IsTrue a.old.in_use × IsTrue b.old.in_use }
    ensures { Compares A.told B.told a.old b.old a.new b.new file }
{
    let len = a.lens[file as usize];
    if are_unlike(len, b.lens[file as usize]) {
        b.in_use = false;
        return;
    }
    match compare_files(&mut a.disk, &mut b.disk, file, len, first, second) {
        Compared::Same => {}
        Compared::FirstFailed => a.in_use = false,
        Compared::Differ => b.in_use = false,
        Compared::SecondFailed => b.in_use = false,
    }
}

/// Compares the file that was bound last, where both sides are in use.
pub(crate) fn compare_last<A: Disk, B: Disk>(
    a: &mut Side<A>,
    b: &mut Side<B>,
    first: &mut [u8],
    second: &mut [u8],
)
    requires last { IsTrue a.old.in_use → IsTrue b.old.in_use → BothLast A.told B.told a.old b.old }
    requires room { (length first.old ≡ 65536) × (length second.old ≡ 65536) }
    ensures { ComparesOrNot A.told B.told a.old b.old a.new b.new (a.old.in_use && b.old.in_use) ((A.told a.old.disk).bound - 1) }
{
    if a.in_use && b.in_use {
        let file = a.disk.bound() - 1;
        compare_both(a, b, file, first, second);
    }
}
