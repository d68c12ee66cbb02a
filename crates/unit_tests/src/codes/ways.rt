//! Ways through a code.

use super::parts::Case;
use stack_code::Instr as I;

pub(super) static WAYS: [Case; 11] = [
    (&[I::Push(0)], false),
    (&[I::Jump { to: 9 }], false),
    (
        &[I::Push(1), I::Jz { to: 5 }, I::Step, I::Push(0), I::Ret],
        true,
    ),
    (
        &[I::Push(1), I::Jz { to: 5 }, I::Push(0), I::Push(0), I::Ret],
        false,
    ),
    (
        &[I::Push(1), I::Jnz { to: 5 }, I::Push(0), I::Push(0), I::Ret],
        false,
    ),
    // References of so many elements and of more are not the same.
    (
        &[
            I::Push(1),
            I::Jz { to: 6 },
            arr!(0, 0, 1),
            I::Jump { to: 7 },
            arr!(0, 0, 2),
            I::Drop,
            I::Push(0),
            I::Ret,
        ],
        false,
    ),
    (
        &[
            I::Push(1),
            I::Jz { to: 6 },
            arr!(0, 0, 3),
            I::Jump { to: 7 },
            arr!(0, 0, 2),
            I::Drop,
            I::Push(0),
            I::Ret,
        ],
        false,
    ),
    (
        &[
            I::Push(1),
            I::Jz { to: 6 },
            arr!(0, 0, 2),
            I::Jump { to: 7 },
            arr!(0, 2, 2),
            I::Drop,
            I::Push(0),
            I::Ret,
        ],
        true,
    ),
    // A jump into the other function, which is called as well, and which is not.
    (
        &[
            I::Push(1),
            I::Jz { to: 8 },
            I::Push(1),
            arr!(0, 0, 2),
            call!(1, 2),
            I::Ret,
            I::Jump { to: 0 },
        ],
        false,
    ),
    (&[I::Jump { to: 0 }], true),
    // What is not reached has no say.
    (&[I::Jump { to: 4 }, I::Drop, I::Push(0), I::Ret], true),
];

pub(super) static WAYS_BACK: [Case; 9] = [
    (&[I::Jump { to: 2 }], false),
    (&[I::Step, I::Jump { to: 2 }], true),
    (&[I::Push(1), I::Jz { to: 2 }, I::Push(0), I::Ret], false),
    (
        &[I::Step, I::Push(1), I::Jz { to: 2 }, I::Push(0), I::Ret],
        true,
    ),
    (&[call!(0, 0), I::Ret], false),
    (&[I::Step, call!(0, 0), I::Ret], true),
    (&[I::Enter { slot: 0 }, spawn!(1, 3), I::End], false),
    (&[I::Enter { slot: 0 }, I::Step, spawn!(1, 3), I::End], true),
    (
        &[
            I::Enter { slot: 0 },
            I::Finish { slot: 0 },
            I::Jump { to: 2 },
        ],
        false,
    ),
];

pub(super) static CALLS_BACK: [Case; 2] = [
    (&[I::Push(1), load!(0, 1), call!(1, 2), I::Ret], false),
    (
        &[I::Step, I::Push(1), load!(0, 1), call!(1, 2), I::Ret],
        true,
    ),
];
