//! What the slow interpreter comes to, on small programs and under journals that were worked out by hand.

ghost use Rattle.std.specs.Prelude.{◌≤◌, length, IfOk};
ghost use Rattle.ac_tree.specs.Shape.{HasShape};
ghost use Rattle.ac_tree.specs.Weight.{IsSmall};

use ac_base::{CoreEnd, EndWord, Journal, Trap};
use ac_lexer::lex;
use ac_parser::parse;
use ac_reference::{Reference, ReplayFault};
use ac_tree::Program;
use ac_types::{Checked, check};
use std::alloc::Global;
use std::test::Fail;
use trace_text::read_trace;

// The program that a source spells.
fn program(alloc: Global, source: &[u8]) -> Result<Program, Fail>
    requires { length source.now ≤ 1048576 }
    ensures { IfOk result (λ p. IsSmall p × HasShape p) }
{
    let Ok(tokens) = lex(alloc, source) else {
        return Err(Fail::from("no tokens"));
    };
    match parse(alloc, &tokens, source.len() as u32) {
        Ok(program) => Ok(program),
        Err(_) => Err(Fail::from("no program")),
    }
}

// The checked tree of a source.
fn checked(alloc: Global, source: &str) -> Result<Checked, Fail> {
    let source = source.as_bytes();
    if source.len() > 1_048_576 {
        return Err(Fail::from("the source is too long"));
    }
    match check(alloc, program(alloc, source)?) {
        Ok(checked) => Ok(checked),
        Err(_) => Err(Fail::from("a rule is broken")),
    }
}

// The entries of a trace, whose stamps and parties are as if its core had made them all.
fn journal(alloc: Global, trace: &str) -> Result<Journal, Fail> {
    let Ok(trace) = read_trace(alloc, trace.as_bytes()) else {
        return Err(Fail::from("no trace"));
    };
    let mut journal = Journal::new(alloc);
    for stamped in trace.entries.into_vec() {
        journal.reserve(1)?;
        journal.push(stamped.entry);
    }
    Ok(journal)
}

#[derive(Clone, Copy)]
struct Row {
    source: &'static str,
    trace: &'static str,
    // How it ends, or nothing where the first entry does not fit.
    word: Option<EndWord>,
    steps: u64,
    output: &'static str,
    globals: &'static [i64],
}

const NOTHING: &str = "ac-trace 1\nsteps 100\nend 0 finished 0 -\n";

// A read is called off, after its thread has gone on once.
const CALLED_OFF: &str = "core a(f); file p(\"p.dat\"); async void f() { int b[1]; int r; \
    l: do { async r = Read(p, 0, 1, b); yield; cancel l; } finish; \
    printf(\"%d %d\\n\", r, b[0]); }";

const ROWS: [Row; 18] = [
    Row {
        source: "core a(f); async void f() { printf(\"%d\\n\", 1+2*3); }",
        trace: NOTHING,
        word: Some(EndWord::Finished),
        steps: 1,
        output: "7\n",
        globals: &[],
    },
    Row {
        source: "core a(f); async void f() { }",
        trace: NOTHING,
        word: Some(EndWord::Finished),
        steps: 0,
        output: "",
        globals: &[],
    },
    // A call: y is declared, g returns, and y is printed.
    Row {
        source: "core a(f); int g(int x) { return x * 2; } \
            async void f() { int y = g(4); printf(\"%d\\n\", y); }",
        trace: NOTHING,
        word: Some(EndWord::Finished),
        steps: 3,
        output: "8\n",
        globals: &[],
    },
    // The body of the async statement runs first, the creator goes on when it has yielded.
    Row {
        source: "core a(f); async void f() { do { async { printf(\"b\"); yield; printf(\"d\"); } \
            printf(\"c\"); } finish; printf(\"e\"); }",
        trace: NOTHING,
        word: Some(EndWord::Finished),
        steps: 8,
        output: "bcde",
        globals: &[],
    },
    Row {
        source: "core a(f); async void f() { int x = 1; while (1) x = x * 2; }",
        trace: NOTHING,
        word: Some(EndWord::OutOfSteps),
        steps: 100,
        output: "",
        globals: &[],
    },
    Row {
        source: "core a(f); async void f() { int x; printf(\"a\"); x = 1 / x; printf(\"b\"); }",
        trace: NOTHING,
        word: Some(EndWord::Trapped(Trap::ZeroDivisor)),
        steps: 3,
        output: "a",
        globals: &[],
    },
    Row {
        source: "core a(f); async void f() { int t[2]; t[2] = 1; }",
        trace: NOTHING,
        word: Some(EndWord::Trapped(Trap::Index)),
        steps: 2,
        output: "",
        globals: &[],
    },
    // Neither side of && and || that is passed over traps.
    Row {
        source: "core a(f); async void f() { int x; printf(\"%d%d\", x && 1 / x, 1 || 1 / x); }",
        trace: NOTHING,
        word: Some(EndWord::Finished),
        steps: 2,
        output: "01",
        globals: &[],
    },
    // Arguments are computed from the left; an array is passed by reference.
    Row {
        source: "core a(f); int t[3]; void set(int p[], int i, int v) { p[i] = v; } \
            async void f() { set(t, 1, 5); set(t, 2, t[1] + 1); printf(\"%d,%d,%d\", t[0], t[1], t[2]); }",
        trace: NOTHING,
        word: Some(EndWord::Finished),
        steps: 5,
        output: "0,5,6",
        globals: &[0, 5, 6],
    },
    // The tests are those with i at 0 to 3, and the third part is used three times.
    Row {
        source: "core a(f); async void f() { int i; for (i = 0; i < 3; i = i + 1) printf(\"%d\", i); }",
        trace: NOTHING,
        word: Some(EndWord::Finished),
        steps: 12,
        output: "012",
        globals: &[],
    },
    Row {
        source: "core a(f); async void f() { int i; while (1) { i = i + 1; if (i < 3) continue; break; } \
            printf(\"%d%%\", i); }",
        trace: NOTHING,
        word: Some(EndWord::Finished),
        steps: 14,
        output: "3%",
        globals: &[],
    },
    // Each frame of g has 16 * 4096 slots and 4 words more. With the 4 of f, 63 of them keep within the 4194304 words, and
    // the call in the last of these traps.
    Row {
        source: "core a(f); async void f() { g(); } void g() { g(); \
            int h0[4096]; int h1[4096]; int h2[4096]; int h3[4096]; \
            int h4[4096]; int h5[4096]; int h6[4096]; int h7[4096]; \
            int h8[4096]; int h9[4096]; int h10[4096]; int h11[4096]; \
            int h12[4096]; int h13[4096]; int h14[4096]; int h15[4096]; }",
        trace: NOTHING,
        word: Some(EndWord::Trapped(Trap::StackFull)),
        steps: 64,
        output: "",
        globals: &[],
    },
    Row {
        source: "core a(f); int x = 3; int t[2]; int y; async void f() { t[1] = x; y = -x; }",
        trace: NOTHING,
        word: Some(EndWord::Finished),
        steps: 2,
        output: "",
        globals: &[3, 0, 3, -3],
    },
    // Where the file is 0123456789 it reads the six bytes from the fifth on, and then writes one past the end.
    Row {
        source: "core a(f); file p(\"p.dat\"); async void f() { int b[256]; int r; \
            r = Read(p, 4, 256, b); printf(\"%d %d %d\\n\", r, b[0], b[5]); \
            b[0] = 65; r = Write(p, 12, 1, b); }",
        trace: "ac-trace 1\nsteps 100\n1 0 1 offer 0 0 read 0 4 256\n3 0 1 know 0 0\n4 0 1 reply 0 0 bytes 343536373839\n\
            5 0 2 offer 0 1 write 0 12 41\n7 0 2 know 0 1\n8 0 2 reply 0 1 count 1\nend 0 finished 6 -\n",
        word: Some(EndWord::Finished),
        steps: 6,
        output: "6 52 57\n",
        globals: &[],
    },
    // The core hears of its read before the cancel, at it as taken, or at it as withdrawn: what was taken gives its
    // answer, and what was withdrawn never happens.
    Row {
        source: CALLED_OFF,
        trace: "ac-trace 1\nsteps 100\n1 0 1 offer 0 0 read 0 0 1\n3 0 2 know 0 0\n4 0 3 reply 0 0 bytes 41\nend 0 finished 9 -\n",
        word: Some(EndWord::Finished),
        steps: 9,
        output: "1 65\n",
        globals: &[],
    },
    Row {
        source: CALLED_OFF,
        trace: "ac-trace 1\nsteps 100\n1 0 1 offer 0 0 read 0 0 1\n3 0 3 know 0 0\n4 0 3 reply 0 0 bytes 41\nend 0 finished 9 -\n",
        word: Some(EndWord::Finished),
        steps: 9,
        output: "1 65\n",
        globals: &[],
    },
    Row {
        source: CALLED_OFF,
        trace: "ac-trace 1\nsteps 100\n1 0 1 offer 0 0 read 0 0 1\n2 0 3 withdraw 0 0\nend 0 finished 9 -\n",
        word: Some(EndWord::Finished),
        steps: 9,
        output: "-1 0\n",
        globals: &[],
    },
    // Nothing was offered that could be known.
    Row {
        source: "core a(f); async void f() { }",
        trace: "ac-trace 1\nsteps 100\n1 0 1 know 0 0\nend 0 finished 0 -\n",
        word: None,
        steps: 0,
        output: "",
        globals: &[],
    },
];

// Whether a core comes to what the row says, and nothing of it waits.
fn is_of(end: &CoreEnd, row: &Row) -> bool {
    Some(end.word) == row.word
        && end.steps == row.steps
        && end.output.as_slice() == row.output.as_bytes()
        && end.globals.as_slice() == row.globals
        && end.waiting.len() == 0
        && !end.idle
}

// Whether the first core comes to what the row says under these entries, within a hundred steps.
fn ends_as(alloc: Global, checked: &Checked, journal: &Journal, row: &Row) -> bool {
    if checked.cores() == 0 {
        return false;
    }
    match Reference::replay(alloc, checked, 0, 100, journal) {
        Ok(end) => is_of(&end, row),
        Err(ReplayFault::Misfit { place }) => place == 0 && row.word == None,
        Err(_) => false,
    }
}

// Whether the row is right.
fn is_right(alloc: Global, row: &Row) -> Result<bool, Fail> {
    let journal = journal(alloc, row.trace)?;
    Ok(ends_as(alloc, &checked(alloc, row.source)?, &journal, row))
}

#[test]
fn cores_come_to_their_ends(rt: HostRuntime) -> Result<(), Fail> {
    for row in &ROWS {
        assert!(rt; is_right(rt.alloc(), row)?, "{}", row.source);
    }
    Ok(())
}
