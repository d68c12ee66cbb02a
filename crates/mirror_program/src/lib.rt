//! The top call of the program whose files are kept on two devices.
#![tactic(auto)]

ghost use Rattle.std.specs.Prelude.{◌≡◌, ◌<◌, ◌≤◌, drop, length, map, string_bytes, IfSome, IfNone, IsSome, IsTrue, None};
ghost use Rattle.ac_program.specs.Headline.{HasFewEntries};
ghost use Rattle.ac_mirror_disk.specs.Rebuilding.{AreShort};
ghost use Rattle.mirror_program.specs.Mirroring.{AnswersAsAc, AreAlikeUnder, HasNoMemory, IsUsage};
ghost use Rattle.mirror_program.specs.Mirroring.{mirror_at_first, prefix_at, told_by_pair, usage_line};

use ac_base::Status;
use ac_mirror_disk::{MirrorDisk, Prefixed};
use ac_outside::{Disk, Gate, Library, Sink};
use ac_program::{Outcome, ac_main};
use program_reading::answer;
use std::alloc::Global;
use std::thread::Threads;

// The line of words that call for nothing.
const USAGE: &str = "usage: ac_mirror PREFIX PREFIX WORDS\n";

// The outcome where memory was refused.
fn no_memory() -> Outcome
    ensures { result ≡ record { status = record { number = 11 }; run = None } }
{
    Outcome {
        status: Status { number: 11 },
        run: None,
    }
}

/// Does what the words behind the first two ask for, as `ac_main` does, with the files of the program on
/// two devices, each under a prefix of its own, which are the first two words: the bytes of a file of path
/// P stand under the prefix and P on each.
///
/// With fewer than two words the status is 1, with the usage line. The mirror is handed back, but for
/// that, and for status 11 where there was no memory to make it; the other statuses are those of
/// `ac_main`.
///
/// Conditions: neither device has bound a file, and both may be called. `is_alike` serves clauses alone: a
/// caller says by `true` that both devices tell what they hold, and that it is the same under each path
/// with its prefix; then the mirror tells it too.
pub fn mirror_main<
    L: Library,
    K: Sink,
    A: Disk + Send + Drop,
    B: Disk + Send + Drop,
    G: Gate + Sync,
    R: Threads + Sync,
>(
    rt: &R,
    alloc: Global,
    words: &[String],
    library: &mut L,
    sink: &mut K,
    a: A,
    b: B,
    is_alike: bool,
    gate: &G,
) -> (Outcome, Option<MirrorDisk<Prefixed<A>, Prefixed<B>>>)
    requires ready { IsTrue (A.told a).is_ready × IsTrue (B.told b).is_ready }
    requires none { ((A.told a).bound ≡ 0) × ((B.told b).bound ≡ 0) }
    requires alike { IsTrue is_alike →
        AreAlikeUnder (prefix_at (map string_bytes words.now) 0) (prefix_at (map string_bytes words.now) 1)
        (A.told a).held (B.told b).held }

    // With fewer than two words there is no mirror, but the usage line.
    ensures usage { length words.now < 2 →
        (result.1 ≡ None) × IsUsage (L.told library.old) (L.told library.new) (K.told sink.old) (K.told sink.new) result.0 }

    // With more and without a mirror there was no memory to make it.
    ensures memory { 2 ≤ length words.now →
        IfNone result.1 (HasNoMemory (L.told library.old) (L.told library.new) (K.told sink.old) (K.told sink.new) result.0) }

    // With it, the outcome is what `ac_main` owes for the other words over the mirror, from where it stood
    // at first.
    ensures mirrored { IfSome result.1 (λ mirror. AnswersAsAc (drop 2 (map string_bytes words.now))
        (L.told library.old) (L.told library.new)
        (told_by_pair A.told B.told (mirror_at_first (map string_bytes words.now) a b is_alike)) (told_by_pair A.told B.told mirror)
        (K.told sink.old) (K.told sink.new) result.0) }
    ensures few { IfSome result.0.run HasFewEntries }

    // The mirror has failed only where the first device has. So where that has not, no status is 9, and
    // nothing is answered FAULT in a run.
    ensures first { IfSome result.1 (λ mirror. IsTrue mirror.is_ready → 0 < mirror.faults → 0 < (A.told mirror.a.disk.disk).faults) }

    // And only where the second has, if both told the same, and no file is longer than 1,048,576 bytes.
    ensures second { IfSome result.1 (λ mirror. IsTrue mirror.is_ready → IsTrue mirror.is_alike →
        AreShort mirror.a.lens (A.told mirror.a.disk.disk).bound → 0 < mirror.faults → 0 < (B.told mirror.b.disk.disk).faults) }
{
    let [first, second, rest @ ..] = words else {
        let status = answer(sink, Status { number: 1 }, USAGE.as_bytes());
        return (Outcome { status, run: None }, None);
    };
    let Ok(a) = Prefixed::new(alloc, a, first.as_str()) else {
        return (no_memory(), None);
    };
    let Ok(b) = Prefixed::new(alloc, b, second.as_str()) else {
        return (no_memory(), None);
    };
    let Ok(mut mirror) = MirrorDisk::new(alloc, a, b, is_alike) else {
        return (no_memory(), None);
    };
    let outcome = ac_main(rt, alloc, rest, library, sink, &mut mirror, gate);
    let _ = mirror.in_use();
    (outcome, Some(mirror))
}
