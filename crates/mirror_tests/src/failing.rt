//! Each call of each side fails once, and both at once: the status, what is written, which side is in use,
//! and what each disk holds.
//!
//! A bind is call 0 of a device, and that of the second file call 1. A file that holds bytes is read once
//! by the comparison and once before the run, an empty one by neither; the second device is asked for
//! reads only once the first is not in use.

use crate::calls::{
    BOTH, Case, Device, EACH, FIRST, NOT_3, PAIR, PRINTS, READ, READS, SECOND, TEN, WRITES, WROTE,
    is_of, run,
};
use std::test::Fail;

// No call of a disk has this number.
const NEVER: u64 = 999;

// What is written of the first program, by which write failed.
const NOT_1: &str = "a: finished after 47 steps, 242 instructions\n-2 8 8 8 \n";

const NOT_2: &str = "a: finished after 47 steps, 242 instructions\n8 -2 8 8 \n";

const NOT_4: &str = "a: finished after 47 steps, 242 instructions\n8 8 8 -2 \n";

// Of the second.
const UNREAD: &str = "a: finished after 6 steps, 33 instructions\n-2 0 0\n";

// Of the third.
const NOT_P: &str = "a: finished after 9 steps, 41 instructions\n-2 2 0\n";

const NOT_Q: &str = "a: finished after 9 steps, 41 instructions\n1 -2 1\n";

const P_UNREAD: &str = "a: finished after 9 steps, 41 instructions\n1 2 -2\n";

const FAULT: &str = "disk fault\n";

// So many writes of eight bytes, one behind the other.
const A0: &str = "|";

const A1: &str = "AAAAAAAA|";

const A2: &str = "AAAAAAAAAAAAAAAA|";

const A3: &str = "AAAAAAAAAAAAAAAAAAAAAAAA|";

const A4: &str = "AAAAAAAAAAAAAAAAAAAAAAAAAAAAAAAA|";

// The four but for the first, the second or the third, in whose place are zeros.
const LESS_1: &str = "\0\0\0\0\0\0\0\0AAAAAAAAAAAAAAAAAAAAAAAA|";

const LESS_2: &str = "AAAAAAAA\0\0\0\0\0\0\0\0AAAAAAAAAAAAAAAA|";

const LESS_3: &str = "AAAAAAAAAAAAAAAA\0\0\0\0\0\0\0\0AAAAAAAA|";

// The file of the second program before its write, and behind it.
const T: &str = "0123456789|";

const T_A: &str = "0123456789\0\0A|";

// Both files of the third program.
const P_Q: &str = "A|A\0|";

type Row = (
    &'static str,
    &'static str,
    u64,
    u64,
    u8,
    &'static str,
    (bool, bool),
    &'static str,
    &'static str,
);

// The program, the bytes of both files before, the call that fails of the first and of the second device,
// the status, what is written, which side is in use, and what each holds.
const ROWS: [Row; 48] = [
    (
        PRINTS,
        "",
        NEVER,
        NEVER,
        0,
        "a: finished after 1 steps, 9 instructions\n7\n",
        EACH,
        "",
        "",
    ),
    (WRITES, "", NEVER, NEVER, 0, WROTE, EACH, A4, A4),
    (WRITES, "", 0, NEVER, 0, WROTE, SECOND, "", A4),
    (WRITES, "", 1, NEVER, 0, WROTE, SECOND, A0, A4),
    (WRITES, "", 2, NEVER, 0, WROTE, SECOND, A1, A4),
    (WRITES, "", 3, NEVER, 0, WROTE, SECOND, A2, A4),
    (WRITES, "", 4, NEVER, 0, WROTE, SECOND, A3, A4),
    (WRITES, "", NEVER, 0, 0, WROTE, FIRST, A4, ""),
    (WRITES, "", NEVER, 1, 0, WROTE, FIRST, A4, A0),
    (WRITES, "", NEVER, 2, 0, WROTE, FIRST, A4, A1),
    (WRITES, "", NEVER, 3, 0, WROTE, FIRST, A4, A2),
    (WRITES, "", NEVER, 4, 0, WROTE, FIRST, A4, A3),
    (WRITES, "", 0, 0, 9, FAULT, FIRST, "", ""),
    (WRITES, "", 1, 1, 0, NOT_1, FIRST, LESS_1, A0),
    (WRITES, "", 2, 2, 0, NOT_2, FIRST, LESS_2, A1),
    (WRITES, "", 3, 3, 0, NOT_3, FIRST, LESS_3, A2),
    (WRITES, "", 4, 4, 0, NOT_4, FIRST, A3, A3),
    // The second fails in the write behind that in which the first was dropped: it is the last, and stays.
    (WRITES, "", 1, 2, 0, NOT_2, SECOND, A0, LESS_2),
    (WRITES, "", 2, 1, 0, NOT_2, FIRST, LESS_2, A0),
    (READS, TEN, NEVER, NEVER, 0, READ, EACH, T_A, T_A),
    (READS, TEN, 0, NEVER, 0, READ, SECOND, "", T_A),
    (READS, TEN, 1, NEVER, 0, READ, SECOND, T, T_A),
    (READS, TEN, 2, NEVER, 0, READ, SECOND, T, T_A),
    (READS, TEN, 3, NEVER, 0, READ, SECOND, T, T_A),
    (READS, TEN, 4, NEVER, 0, READ, SECOND, T, T_A),
    (READS, TEN, NEVER, 0, 0, READ, FIRST, T_A, ""),
    (READS, TEN, NEVER, 1, 0, READ, FIRST, T_A, T),
    (READS, TEN, NEVER, 2, 0, READ, FIRST, T_A, T),
    (READS, TEN, 0, 0, 9, FAULT, FIRST, "", ""),
    // The comparison ends at the read of the first that fails, so the second fails in the read before the run.
    (READS, TEN, 1, 1, 9, FAULT, SECOND, T, T),
    (READS, TEN, 2, 2, 9, FAULT, FIRST, T, T),
    (READS, TEN, 3, 2, 0, UNREAD, FIRST, T_A, T),
    (READS, TEN, 4, 2, 0, READ, FIRST, T, T),
    (PAIR, "", NEVER, NEVER, 0, BOTH, EACH, P_Q, P_Q),
    (PAIR, "", 0, NEVER, 0, BOTH, SECOND, "", P_Q),
    (PAIR, "", 1, NEVER, 0, BOTH, SECOND, "|", P_Q),
    (PAIR, "", 2, NEVER, 0, BOTH, SECOND, "||", P_Q),
    (PAIR, "", 3, NEVER, 0, BOTH, SECOND, "A||", P_Q),
    (PAIR, "", 4, NEVER, 0, BOTH, SECOND, P_Q, P_Q),
    (PAIR, "", NEVER, 0, 0, BOTH, FIRST, P_Q, ""),
    (PAIR, "", NEVER, 1, 0, BOTH, FIRST, P_Q, "|"),
    (PAIR, "", NEVER, 2, 0, BOTH, FIRST, P_Q, "||"),
    (PAIR, "", NEVER, 3, 0, BOTH, FIRST, P_Q, "A||"),
    (PAIR, "", 0, 0, 9, FAULT, FIRST, "", ""),
    (PAIR, "", 1, 1, 9, FAULT, FIRST, "|", "|"),
    (PAIR, "", 2, 2, 0, NOT_P, FIRST, "|A\0|", "||"),
    (PAIR, "", 3, 3, 0, NOT_Q, FIRST, "A||", "A||"),
    (PAIR, "", 4, 4, 0, P_UNREAD, FIRST, P_Q, P_Q),
];

// A device that has this file under this prefix, and fails in this call.
fn device<'a>(path: &'a str, bytes: &'a str, fails: &'a [u64]) -> Device<'a> {
    Device {
        path,
        bytes,
        fails,
        taken: 0,
    }
}

#[test]
fn each_call_of_each_side_fails_once(rt: HostRuntime) -> Result<(), Fail> {
    for (at, (program, bytes, a, b, status, line, in_use, first, second)) in ROWS
        .iter()
        .enumerate()
    {
        let (a, b) = ([*a], [*b]);
        let case = Case {
            program,
            a: device("a/p.dat", bytes, &a),
            b: device("b/p.dat", bytes, &b),
            times: 0,
            line,
            first,
            second,
        };
        let left = run(&rt, rt.alloc(), &case)?;
        assert!(rt; is_of(left, *status, None, *in_use), "row {at}");
    }
    Ok(())
}
