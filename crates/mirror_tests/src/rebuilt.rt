//! Rebuilding the side that was dropped: what the run wrote, what the rebuilding answers, which side is in
//! use then, and what each holds.

use crate::calls::{
    BOTH, Case, Device, EACH, FIRST, NOT_3, PAIR, READ, READS, SECOND, TEN, WRITES, WROTE, is_of,
    run,
};
use ac_mirror_disk::Rebuilt;
use std::test::Fail;

const WHOLE: &str = "AAAAAAAAAAAAAAAAAAAAAAAAAAAAAAAA|";

const P_Q: &str = "A|A\0|";

// A file of the second device that is longer than what is written.
const LONG: &str = "bbbbbbbbbbbbbbbbbbbbbbbbbbbbbbbbbbbbbbbb";

const LONG_HELD: &str = "bbbbbbbbbbbbbbbbbbbbbbbbbbbbbbbbbbbbbbbb|";

const NONE_AND_LONG: &str = "|bbbbbbbbbbbbbbbbbbbbbbbbbbbbbbbbbbbbbbbb|";

// What the program that reads leaves in its file.
const TEN_A: &str = "0123456789\0\0A|";

// Two writes, of the third five bytes, and of the fourth nothing.
const FIVE: &str = "AAAAAAAAAAAAAAAAAAAAA|";

// Two writes, of the third three bytes.
const THREE: &str = "AAAAAAAAAAAAAAAAAAA|";

// Two writes, of the third five bytes, and the fourth: between them are zeros.
const GAP: &str = "AAAAAAAAAAAAAAAAAAAAA\0\0\0AAAAAAAA|";

// The file of a device and what it holds, the calls that fail, and how many bytes of a write go in then.
type Kept = (&'static str, &'static str, &'static [u64], u32);

type Row = (
    &'static str,
    Kept,
    Kept,
    u32,
    &'static str,
    Option<Rebuilt>,
    (bool, bool),
    &'static str,
    &'static str,
);

// A device whose third write fails behind five bytes, and one that never fails.
const TORN: Kept = ("a/p.dat", "", &[3], 5);

const WELL: Kept = ("b/p.dat", "", &[], 0);

// One whose third write fails behind three bytes.
const TORN_TOO: Kept = ("b/p.dat", "", &[3], 3);

const DONE: Option<Rebuilt> = Some(Rebuilt::Both);

const FAULT: Option<Rebuilt> = Some(Rebuilt::Fault);

// The program, both devices, how often it is rebuilt, what was written, the answer, which side is in use,
// and what each holds.
// A bind is call 0; each of four writes is one; then a rebuilding reads a file of 32 bytes by one call of
// the one device, and writes it by one of the other.
const ROWS: [Row; 15] = [
    // Before it, the first device holds what had gone in.
    (WRITES, TORN, WELL, 0, WROTE, None, SECOND, FIVE, WHOLE),
    // It is made what the other is.
    (WRITES, TORN, WELL, 1, WROTE, DONE, EACH, WHOLE, WHOLE),
    // And once more nothing is done.
    (WRITES, TORN, WELL, 2, WROTE, DONE, EACH, WHOLE, WHOLE),
    // Both fail in one write: the second is dropped.
    (WRITES, TORN, TORN_TOO, 0, NOT_3, None, FIRST, GAP, THREE),
    // And made what the first is.
    (WRITES, TORN, TORN_TOO, 1, NOT_3, DONE, EACH, GAP, GAP),
    // Its write fails, and it stays out of use.
    (
        WRITES,
        ("a/p.dat", "", &[3, 4], 5),
        WELL,
        1,
        WROTE,
        FAULT,
        SECOND,
        FIVE,
        WHOLE,
    ),
    // The next time it does not.
    (
        WRITES,
        ("a/p.dat", "", &[3, 4], 5),
        WELL,
        2,
        WROTE,
        DONE,
        EACH,
        WHOLE,
        WHOLE,
    ),
    // The read of the other fails.
    (
        WRITES,
        TORN,
        ("b/p.dat", "", &[5], 0),
        1,
        WROTE,
        FAULT,
        SECOND,
        FIVE,
        WHOLE,
    ),
    // A file that was never bound is bound first.
    (
        WRITES,
        ("a/p.dat", "", &[0], 0),
        WELL,
        1,
        WROTE,
        DONE,
        EACH,
        WHOLE,
        WHOLE,
    ),
    // And that fails again.
    (
        WRITES,
        ("a/p.dat", "", &[0, 1], 0),
        WELL,
        1,
        WROTE,
        FAULT,
        SECOND,
        "",
        WHOLE,
    ),
    // A file that is longer on the second device stays as it is.
    (
        WRITES,
        ("a/p.dat", "", &[], 0),
        ("b/p.dat", LONG, &[], 0),
        1,
        WROTE,
        Some(Rebuilt::Longer { file: 0 }),
        FIRST,
        WHOLE,
        LONG_HELD,
    ),
    // Of two files the second was never bound.
    (
        PAIR,
        ("a/p.dat", "", &[1], 0),
        WELL,
        1,
        BOTH,
        DONE,
        EACH,
        P_Q,
        P_Q,
    ),
    // The second of two is longer, and neither is copied.
    (
        PAIR,
        ("a/q.dat", "", &[], 0),
        ("b/q.dat", LONG, &[], 0),
        1,
        BOTH,
        Some(Rebuilt::Longer { file: 1 }),
        FIRST,
        P_Q,
        NONE_AND_LONG,
    ),
    // Neither was dropped.
    (
        READS,
        ("a/p.dat", TEN, &[], 0),
        ("b/p.dat", TEN, &[], 0),
        1,
        READ,
        DONE,
        EACH,
        TEN_A,
        TEN_A,
    ),
    // A device whose file differs in its last byte is dropped, and keeps it.
    (
        READS,
        ("a/p.dat", TEN, &[], 0),
        ("b/p.dat", "0123456780", &[], 0),
        0,
        READ,
        None,
        FIRST,
        TEN_A,
        "0123456780|",
    ),
];

fn device(given: Kept) -> Device<'static> {
    let (path, bytes, fails, taken) = given;
    Device {
        path,
        bytes,
        fails,
        taken,
    }
}

#[test]
fn a_side_is_made_what_the_other_is(rt: HostRuntime) -> Result<(), Fail> {
    for (at, (program, a, b, times, line, rebuilt, in_use, first, second)) in ROWS
        .iter()
        .enumerate()
    {
        let case = Case {
            program,
            a: device(*a),
            b: device(*b),
            times: *times,
            line,
            first,
            second,
        };
        let left = run(&rt, rt.alloc(), &case)?;
        assert!(rt; is_of(left, 0, *rebuilt, *in_use), "row {at}");
    }
    Ok(())
}
