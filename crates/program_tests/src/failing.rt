//! Calls of which one call of the library, of the sink or of the disk fails, each in turn: the status,
//! what is written, and what the file then holds.

use crate::main_calls::{Left, Outside, WELL, call};
use std::alloc::Global;
use std::test::Fail;
use std::thread::Threads;

const SEVEN: &str = "core a(f); async void f() { printf(\"%d\\n\", 1+2*3); }";

const REPORT: &str = "a: finished after 1 steps, 9 instructions\n7\n";

const TWO: &str = "core a(f); async void f() { printf(\"%d\\n\", 1); printf(\"%d\\n\", 2); }";

const UNDECLARED: &str = "core a(f); async void f() { x = 1; }";

// Whether a run writes as much of its report as a sink has room for.
fn is_front<R: Threads + Sync>(rt: &R, alloc: Global, room: usize) -> Result<bool, Fail> {
    let outside = Outside {
        text: SEVEN,
        room: room as u64,
        ..WELL
    };
    let left = call(rt, alloc, &["run", "x.ac"], &outside)?;
    let status = if room < 44 { 8 } else { 0 };
    let front = &REPORT.as_bytes()[..room.min(REPORT.len())];
    Ok(left.status == status && left.ran && left.taken.as_slice() == front)
}

type Written = (&'static [&'static str], &'static str, u64, u8, &'static str);

// What is written by other calls, as far as there is room.
const WRITTEN: [Written; 6] = [
    (&["run", "x.ac", "--steps=1"], TWO, 4, 8, "a: o"),
    (&[], SEVEN, 10, 8, "usage: ac "),
    (&["run", "x.ac"], UNDECLARED, 8, 8, "rule C2 "),
    (&["check", "x.ac"], SEVEN, 9, 0, "accepted\n"),
    (&["check", "x.ac"], SEVEN, 8, 8, "accepted"),
    (&["code", "x.ac"], SEVEN, 10, 8, "core a 0\nf"),
];

#[test]
fn what_is_due_is_written_as_far_as_there_is_room(rt: HostRuntime) -> Result<(), Fail> {
    for room in 0..=44 {
        assert!(rt; is_front(&rt, rt.alloc(), room)?, "at room {room}");
    }
    for (at, (words, text, room, status, taken)) in WRITTEN.iter().enumerate() {
        let outside = Outside {
            text,
            room: *room,
            ..WELL
        };
        let left = call(&rt, rt.alloc(), words, &outside)?;
        let written = left.status == *status && left.taken.as_slice() == taken.as_bytes();
        assert!(rt; written && left.ran == (at == 0), "row {at}");
    }
    Ok(())
}

type Refused = (&'static str, u64, u8, &'static str);

// A text is opened by call 0, and read by calls 1 and 2, of which the last finds its end.
const REFUSED: [Refused; 9] = [
    ("run", 0, 7, "library fault\n"),
    ("run", 1, 7, "library fault\n"),
    ("run", 2, 7, "library fault\n"),
    ("run", 3, 0, REPORT),
    ("run", 999, 0, REPORT),
    ("check", 2, 7, "library fault\n"),
    ("check", 3, 0, "accepted\n"),
    ("code", 1, 7, "library fault\n"),
    ("trace", 1, 7, "library fault\n"),
];

#[test]
fn a_library_that_fails_is_told_and_opened_once(rt: HostRuntime) -> Result<(), Fail> {
    for (at, (task, fails, status, line)) in REFUSED.iter().enumerate() {
        let outside = Outside {
            text: SEVEN,
            library_fails: *fails,
            ..WELL
        };
        let left = call(&rt, rt.alloc(), &[task, "x.ac"], &outside)?;
        let told = left.status == *status && left.taken.as_slice() == line.as_bytes();
        assert!(rt; told && left.opens == 1, "row {at}");
    }
    Ok(())
}

// The file is bound by call 0, its length tested, and read by one call for each 65,536 bytes, whole or
// begun. A check leaves the disk alone.
const STARTING: [(&str, usize, u64, u8, &str, u64); 7] = [
    (
        "run",
        65_537,
        99,
        0,
        "a: finished after 0 steps, 2 instructions\n",
        3,
    ),
    ("run", 1_048_577, 99, 10, "limit: file 0\n", 1),
    ("run", 3, 0, 9, "disk fault\n", 1),
    ("run", 3, 1, 9, "disk fault\n", 2),
    ("run", 65_537, 2, 9, "disk fault\n", 3),
    ("trace", 65_537, 2, 9, "disk fault\n", 3),
    ("check", 3, 0, 0, "accepted\n", 0),
];

#[test]
fn a_file_is_bound_and_read_before_a_run(rt: HostRuntime) -> Result<(), Fail> {
    let alloc = rt.alloc();
    for (at, (task, size, fails, status, line, calls)) in STARTING.iter().enumerate() {
        let file = vec![in alloc; 7u8; *size]?;
        let outside = Outside {
            text: "core a(f); file p(\"p\"); async void f() { }",
            file: file.as_slice(),
            disk_fails: *fails,
            ..WELL
        };
        let left = call(&rt, alloc, &[task, "x.ac"], &outside)?;
        let told = left.status == *status && left.taken.as_slice() == line.as_bytes();
        assert!(rt; told && left.calls == *calls, "row {at}");
    }
    Ok(())
}

// A read, and a write past the end.
const GAP: &str = "core a(f); file p(\"p\"); async void f() { int b[256]; int r; \
    r = Read(p, 4, 256, b); printf(\"%d %d %d\\n\", r, b[0], b[5]); b[0] = 65; r = Write(p, 12, 1, b); }";

// Four writes, one behind the other.
const FOUR: &str = "core a(f); file p(\"p\"); async void f() { int b[8]; int i; int r; \
    for (i = 0; i < 8; i = i + 1) b[i] = 65; \
    for (i = 0; i < 4; i = i + 1) { r = Write(p, i * 8, 8, b); printf(\"%d \", r); } }";

// Two reads at once.
const BOTH: &str = "core a(f); file p(\"p\"); async void f() { int b[2]; int c[2]; int r; int s; \
    do { async r = Read(p, 0, 2, b); async s = Read(p, 1, 2, c); } finish; \
    printf(\"%d %d %d %d\\n\", r, s, b[0], c[0]); }";

const TEN: &str = "0123456789";

// The program, its file, the call that fails, with the bytes that went in, the status, the report, the
// file then, and how many calls were made.
type Row = (
    &'static str,
    &'static str,
    u64,
    u32,
    u8,
    &'static str,
    &'static str,
    u64,
);

// A read that fails stores nothing.
const OF_A_READ: [Row; 6] = [
    (GAP, TEN, 0, 0, 9, "disk fault\n", "", 1),
    (GAP, TEN, 1, 0, 9, "disk fault\n", TEN, 2),
    (
        GAP,
        TEN,
        2,
        0,
        0,
        "a: finished after 6 steps, 33 instructions\n-2 0 0\n",
        "0123456789\0\0A",
        4,
    ),
    (
        GAP,
        TEN,
        3,
        0,
        0,
        "a: finished after 6 steps, 33 instructions\n6 52 57\n",
        TEN,
        4,
    ),
    (
        GAP,
        TEN,
        3,
        1,
        0,
        "a: finished after 6 steps, 33 instructions\n6 52 57\n",
        "0123456789\0\0A",
        4,
    ),
    (
        GAP,
        TEN,
        4,
        0,
        0,
        "a: finished after 6 steps, 33 instructions\n6 52 57\n",
        "0123456789\0\0A",
        4,
    ),
];

// A write that fails leaves its front.
const OF_A_WRITE: [Row; 5] = [
    (
        FOUR,
        "",
        1,
        3,
        0,
        "a: finished after 47 steps, 242 instructions\n-2 8 8 8 \n",
        "AAA\0\0\0\0\0AAAAAAAAAAAAAAAAAAAAAAAA",
        5,
    ),
    (
        FOUR,
        "",
        2,
        3,
        0,
        "a: finished after 47 steps, 242 instructions\n8 -2 8 8 \n",
        "AAAAAAAAAAA\0\0\0\0\0AAAAAAAAAAAAAAAA",
        5,
    ),
    (
        FOUR,
        "",
        3,
        5,
        0,
        "a: finished after 47 steps, 242 instructions\n8 8 -2 8 \n",
        "AAAAAAAAAAAAAAAAAAAAA\0\0\0AAAAAAAA",
        5,
    ),
    (
        FOUR,
        "",
        4,
        3,
        0,
        "a: finished after 47 steps, 242 instructions\n8 8 8 -2 \n",
        "AAAAAAAAAAAAAAAAAAAAAAAAAAA",
        5,
    ),
    (
        FOUR,
        "",
        5,
        3,
        0,
        "a: finished after 47 steps, 242 instructions\n8 8 8 8 \n",
        "AAAAAAAAAAAAAAAAAAAAAAAAAAAAAAAA",
        5,
    ),
];

// A fault is the answer to its own request.
const OF_ONE_OF_TWO: [Row; 3] = [
    (
        BOTH,
        "xy",
        2,
        0,
        0,
        "a: finished after 11 steps, 44 instructions\n-2 1 0 121\n",
        "xy",
        4,
    ),
    (
        BOTH,
        "xy",
        3,
        0,
        0,
        "a: finished after 11 steps, 44 instructions\n2 -2 120 0\n",
        "xy",
        4,
    ),
    (
        BOTH,
        "xy",
        4,
        0,
        0,
        "a: finished after 11 steps, 44 instructions\n2 1 120 121\n",
        "xy",
        4,
    ),
];

// Whether a run came to what the row says.
fn is_of(left: &Left, status: u8, report: &str, file: &str, calls: u64) -> bool {
    left.status == status
        && left.taken.as_slice() == report.as_bytes()
        && left.file.as_slice() == file.as_bytes()
        && left.calls == calls
}

#[test]
fn a_disk_that_fails_answers_the_program(rt: HostRuntime) -> Result<(), Fail> {
    for rows in [
        OF_A_READ.as_slice(),
        OF_A_WRITE.as_slice(),
        OF_ONE_OF_TWO.as_slice(),
    ] {
        for (text, bytes, disk_fails, taken, status, report, file, calls) in rows {
            let outside = Outside {
                text,
                file: bytes.as_bytes(),
                disk_fails: *disk_fails,
                taken: *taken,
                ..WELL
            };
            let left = call(&rt, rt.alloc(), &["run", "x.ac"], &outside)?;
            assert!(rt;
                is_of(&left, *status, report, file, *calls),
                "call {disk_fails} of {text}"
            );
        }
    }
    Ok(())
}

// The most calls of a load of one turn: two files are bound, and each of three bytes is written to both
// and read from both.
const MOST: u64 = 14;

// The fewest: of each two reads the one that comes second is called off.
const FEWEST: u64 = 11;

const ALL: &str = "load 1 status 0\n0\n1\n2\n";

// A failed write leaves one file without its byte. Where another stands behind by then, it reads as 0
// there, and that may be the answer. Only the 1 can be missing: a 0 is not missed, and none stands behind
// the 2.
const WITHOUT_ONE: &str = "load 1 status 0\n0\n0\n2\n";

// Whether a load may come to this where that call of the disk fails, a write after so many bytes. Which
// of the clients' requests come first is not said. A failed read is taken from the other file.
fn is_due(left: &Left, fails: u64, taken: u32) -> bool {
    let written = left.taken.as_slice();
    if fails < 2 {
        return left.status == 9 && left.calls == fails + 1 && written == b"disk fault\n".as_slice();
    }
    let may_lack = taken == 0 && fails < left.calls;
    let is_whole = written == ALL.as_bytes();
    let lacks = written == WITHOUT_ONE.as_bytes();
    let calls = left.calls >= FEWEST && left.calls <= MOST;
    left.status == 0 && calls && (is_whole || may_lack && lacks)
}

// Whether a load over an empty disk is as it may be.
fn loads<R: Threads + Sync>(rt: &R, alloc: Global, fails: u64, taken: u32) -> Result<bool, Fail> {
    let outside = Outside {
        disk_fails: fails,
        taken,
        ..WELL
    };
    let left = call(rt, alloc, &["load", "1"], &outside)?;
    Ok(is_due(&left, fails, taken))
}

#[test]
fn a_load_goes_on_where_a_call_of_the_disk_fails(rt: HostRuntime) -> Result<(), Fail> {
    for fails in 0..=MOST {
        let well = loads(&rt, rt.alloc(), fails, 0)? && loads(&rt, rt.alloc(), fails, 1)?;
        assert!(rt; well, "call {fails}");
    }
    Ok(())
}
