//! One program under two schedules.

use crate::holding::{Calls, Hold};
use crate::main_calls::{Outside, WELL, call};
use std::test::Fail;

// Core a offers a message to b, waits for one of e, and then calls its own off. It prints 0 where b took it
// before, and else -1.
const CALLED_OFF: &str = "core a(f); core b(g); core e(h); channel c(a, b, 1); channel d(e, a, 1); \
    async void f() { int r; int x; t: do { async r = Send(c, 5); Recv(d, &x); cancel t; } finish; printf(\"%d\\n\", r); } \
    async void g() { int y; Recv(c, &y); } async void h() { Send(d, 1); }";

// What e has sent comes to a while e is held, and b begins when a has called its message off.
const E_SENDS_FIRST: [Hold; 3] = [
    (0, Calls::First, 2, 1),
    (2, Calls::Later, 0, 3),
    (1, Calls::First, 0, 3),
];

// What a has sent comes to b while a is held, and e begins when b has taken it.
const B_TAKES_FIRST: [Hold; 3] = [
    (1, Calls::First, 0, 1),
    (0, Calls::Later, 1, 1),
    (2, Calls::First, 1, 1),
];

const SCHEDULES: [(&[Hold], u8, &str); 2] = [
    (
        &E_SENDS_FIRST,
        5,
        "a: finished after 9 steps, 28 instructions\n-1\nb: stalled after 2 steps, 6 instructions\n\
        e: finished after 1 steps, 6 instructions\n",
    ),
    (
        &B_TAKES_FIRST,
        0,
        "a: finished after 9 steps, 28 instructions\n0\nb: finished after 2 steps, 9 instructions\n\
        e: finished after 1 steps, 6 instructions\n",
    ),
];

// No body that runs the parties one after another meets this, in whatever order: each schedule has a party
// that is held after its message until another has taken it.
#[test]
fn a_message_crosses_while_its_sender_is_held(rt: HostRuntime) -> Result<(), Fail> {
    for (holds, status, report) in SCHEDULES {
        let outside = Outside {
            text: CALLED_OFF,
            holds,
            ..WELL
        };
        let left = call(&rt, rt.alloc(), &["run", "x.ac"], &outside)?;
        assert!(rt; !left.limit_met, "status {status}");
        assert_eq!(rt; left.status, status);
        assert!(rt;
            left.taken.as_slice() == report.as_bytes(),
            "status {status}"
        );
    }
    Ok(())
}
