//! What a call of a mirror does with its two sides.

ghost use Rattle.std.specs.Prelude.{◌≡◌, ◌+◌, ◌≤◌, ◌||◌, ◌&&◌, not, length, is_some, if◌then◌else◌, IsTrue, IsSome, Some};
ghost use Rattle.std.specs.Io.{ReadsAtMost};
ghost use Rattle.ac_mirror_disk.specs.Sides.{first_stays, second_stays, has_failed, wants_memory};
ghost use Rattle.ac_mirror_disk.specs.Pairs.{BothBind, BothRead, BothWrite};
ghost use Rattle.ac_mirror_disk.specs.inner.Callable.{MayBind, MayCall};

use crate::comparing::compare_last;
use crate::side::Side;
use ac_outside::{BindFault, Disk, FILE_BYTES, Failed, Torn};

// Whether a side was called and failed.
fn has_failed<T: Copy, E: Copy>(answer: Option<Result<T, E>>) -> bool
    ensures { result ≡ has_failed answer }
{
    match answer {
        Some(Err(_)) => true,
        _ => false,
    }
}

// Whether a side was called and gave what it was asked for.
fn has_given<T: Copy, E: Copy>(answer: Option<Result<T, E>>) -> bool
    ensures { result ≡ (is_some answer && not (has_failed answer)) }
{
    match answer {
        Some(Ok(_)) => true,
        _ => false,
    }
}

// Whether a side was to bind, and memory was refused.
fn wants_memory(answer: Option<Result<u32, BindFault>>) -> bool
    ensures { result ≡ wants_memory answer }
{
    match answer {
        Some(Err(BindFault::NoMemory)) => true,
        _ => false,
    }
}

// Whether no bind of a side has failed, also in this call.
fn stays_even(even: bool, a_failed: bool, b_failed: bool) -> bool
    ensures { result ≡ (even && not a_failed && not b_failed) }
{
    even && !a_failed && !b_failed
}

// Drops the side that has failed, but for the last in use.
fn drop_failed<A, B>(a: &mut Side<A>, a_failed: bool, b: &mut Side<B>, b_failed: bool)
    ensures a { a.new ≡ record a.old { in_use = first_stays a.old.in_use a_failed b.old.in_use b_failed } }
    ensures b { b.new ≡ record b.old { in_use = second_stays a.old.in_use b.old.in_use b_failed } }
{
    let first = a.in_use;
    let second = b.in_use;
    a.in_use = first && !(a_failed && second && !b_failed);
    b.in_use = second && !(first && b_failed);
}

// The answer of the first side that is in use.
fn standing<T: Copy, E: Copy>(
    first: bool,
    of_a: Option<Result<T, E>>,
    of_b: Option<Result<T, E>>,
) -> Result<T, E>
    requires { IsSome (if first then of_a else of_b) }
    ensures { (if first then of_a else of_b) ≡ Some result }
{
    let answer = if first { of_a } else { of_b };
    match answer {
        Some(result) => result,
        None => unreachable!(),
    }
}

/// Reads from the first side in use, and after its failure from the other.
pub(crate) fn read_both<A: Disk, B: Disk>(
    a: &mut Side<A>,
    b: &mut Side<B>,
    file: u32,
    from: u32,
    into: &mut [u8],
) -> Result<usize, Failed>
    requires some { IsTrue (a.old.in_use || b.old.in_use) }
    requires first { MayCall A.told a.old file }
    requires second { MayCall B.told b.old file }
    requires within { from + length into.old ≤ FILE_BYTES }
    ensures most { ReadsAtMost result into.new }
    ensures both { BothRead A.told B.told a.old b.old a.new b.new file from (length into.old) into.new result }
{
    let of_a = a.read(file, from, into);
    let of_b = if has_given(of_a) {
        None
    } else {
        b.read(file, from, into)
    };
    drop_failed(a, has_failed(of_a), b, has_failed(of_b));
    standing(a.in_use, of_a, of_b)
}

/// Writes to each side in use.
pub(crate) fn write_both<A: Disk, B: Disk>(
    a: &mut Side<A>,
    b: &mut Side<B>,
    file: u32,
    from: u32,
    bytes: &[u8],
) -> Result<(), Torn>
    requires some { IsTrue (a.old.in_use || b.old.in_use) }
    requires first { MayCall A.told a.old file }
    requires second { MayCall B.told b.old file }
    requires within { from + length bytes.now ≤ FILE_BYTES }
    ensures both { BothWrite A.told B.told a.old b.old a.new b.new file from bytes.now result }
{
    let of_a = a.write(file, from, bytes);
    let of_b = b.write(file, from, bytes);
    drop_failed(a, has_failed(of_a), b, has_failed(of_b));
    standing(a.in_use, of_a, of_b)
}

/// Binds a file on each side in use, and drops the second where the two differ.
pub(crate) fn bind_both<A: Disk, B: Disk>(
    a: &mut Side<A>,
    b: &mut Side<B>,
    path: &str,
    even: &mut bool,
    first: &mut [u8],
    second: &mut [u8],
) -> Result<u32, BindFault>
    requires some { IsTrue (a.old.in_use || b.old.in_use) }
    requires first { MayBind A.told a.old path.now }
    requires second { MayBind B.told b.old path.now }
    requires as_many { IsTrue a.old.in_use → IsTrue b.old.in_use → (A.told a.old.disk).bound ≡ (B.told b.old.disk).bound }
    requires room { (length first.old ≡ 65536) × (length second.old ≡ 65536) }
    ensures { BothBind A.told B.told a.old b.old a.new b.new path.now even.old even.new result }
{
    let of_a = a.bind(path);
    if wants_memory(of_a) {
        return Err(BindFault::NoMemory);
    }
    let of_b = b.bind(path);
    if wants_memory(of_b) {
        return Err(BindFault::NoMemory);
    }
    *even = stays_even(*even, has_failed(of_a), has_failed(of_b));
    drop_failed(a, has_failed(of_a), b, has_failed(of_b));
    compare_last(a, b, first, second);
    standing(a.in_use, of_a, of_b)
}
