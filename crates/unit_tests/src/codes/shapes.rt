//! Operands, blocks and bodies.

use super::parts::Case;
use stack_code::Instr as I;

pub(super) static OPERANDS: [Case; 24] = [
    (&[I::Push(1), I::Ret], true),
    (&[I::Ret], false),
    (&[I::Push(1), I::Push(1), I::Ret], false),
    (&[arr!(0, 0, 1), I::Ret], false),
    (&[I::Push(1), I::Push(2), I::Add, I::Ret], true),
    (&[I::Push(1), I::Add, I::Ret], false),
    (&[arr!(0, 0, 1), I::Push(1), I::Add, I::Ret], false),
    (&[arr!(0, 0, 2), I::Push(0), I::Elem, I::Ret], true),
    (&[I::Push(0), arr!(0, 0, 2), I::Elem, I::Ret], false),
    (
        &[
            I::Push(7),
            arr!(0, 0, 2),
            I::Push(0),
            I::SetElem,
            I::Push(1),
            I::Ret,
        ],
        true,
    ),
    (
        &[
            arr!(0, 0, 2),
            I::Push(0),
            I::Push(7),
            I::SetElem,
            I::Push(1),
            I::Ret,
        ],
        false,
    ),
    (&[arr!(0, 0, 1), I::Drop, I::Push(1), I::Ret], true),
    (&[I::Drop, I::Push(1), I::Ret], false),
    (&[arr!(0, 0, 1), I::Recv { channel: 0 }, I::Ret], true),
    (&[arr!(0, 0, 2), I::Recv { channel: 0 }, I::Ret], false),
    (
        &[
            arr!(0, 0, 2),
            I::Push(1),
            I::Place,
            I::Recv { channel: 0 },
            I::Ret,
        ],
        true,
    ),
    (&[arr_g!(2, 1), I::Recv { channel: 0 }, I::Ret], true),
    (&[I::Push(1), I::Send { channel: 0 }, I::Ret], true),
    (&[arr!(0, 0, 1), I::Send { channel: 0 }, I::Ret], true),
    (&[arr!(0, 0, 2), I::Send { channel: 0 }, I::Ret], false),
    (
        &[
            arr!(0, 0, 2),
            I::Push(1),
            I::Place,
            I::Send { channel: 0 },
            I::Ret,
        ],
        true,
    ),
    (
        &[
            I::Push(0),
            I::Push(2),
            arr!(0, 0, 2),
            I::Read { file: 15 },
            I::Ret,
        ],
        true,
    ),
    (
        &[
            arr!(0, 0, 2),
            I::Push(0),
            I::Push(2),
            I::Write { file: 0 },
            I::Ret,
        ],
        false,
    ),
    (&[I::Push(0), I::Yield, I::Ret], true),
];

// The channel is one of two ints.
pub(super) static MESSAGES: [Case; 10] = [
    (&[arr!(0, 0, 2), I::Send { channel: 0 }, I::Ret], true),
    (&[arr_g!(1, 2), I::Send { channel: 0 }, I::Ret], true),
    (&[I::Push(1), I::Send { channel: 0 }, I::Ret], false),
    (&[arr!(0, 0, 1), I::Send { channel: 0 }, I::Ret], false),
    (&[arr!(0, 0, 3), I::Send { channel: 0 }, I::Ret], false),
    (
        &[
            arr!(0, 0, 2),
            I::Push(1),
            I::Place,
            I::Send { channel: 0 },
            I::Ret,
        ],
        false,
    ),
    (
        &[
            arr!(0, 0, 2),
            I::Push(1),
            arr!(0, 0, 3),
            call!(1, 2),
            I::Drop,
            I::Send { channel: 0 },
            I::Ret,
        ],
        true,
    ),
    (&[arr!(0, 0, 2), I::Recv { channel: 0 }, I::Ret], true),
    (&[arr!(0, 0, 1), I::Recv { channel: 0 }, I::Ret], false),
    (
        &[
            arr!(0, 0, 2),
            I::Push(0),
            I::Place,
            I::Recv { channel: 0 },
            I::Ret,
        ],
        false,
    ),
];

pub(super) static RANGES: [Case; 12] = [
    (&[I::Push(1), arr!(0, 0, 2), call!(1, 2), I::Ret], true),
    (&[arr!(0, 0, 2), I::Push(1), call!(1, 2), I::Ret], false),
    (&[I::Push(1), I::Push(1), call!(1, 2), I::Ret], false),
    (&[I::Push(1), arr!(0, 0, 2), call!(1, 1), I::Ret], false),
    (&[call!(2, 0), I::Ret], false),
    (
        &[I::Push(1), I::Push(2), printf!(0, 2), I::Push(0), I::Ret],
        true,
    ),
    (&[I::Push(1), printf!(0, 1), I::Push(0), I::Ret], false),
    (&[printf!(1, 0), I::Push(0), I::Ret], true),
    (&[printf!(2, 0), I::Push(0), I::Ret], false),
    (&[I::Push(1), I::Send { channel: 1 }, I::Ret], false),
    (&[arr!(0, 0, 1), I::Recv { channel: 1 }, I::Ret], false),
    (
        &[
            I::Push(0),
            I::Push(2),
            arr!(0, 0, 2),
            I::Read { file: 16 },
            I::Ret,
        ],
        false,
    ),
];

pub(super) static BLOCKS: [Case; 8] = [
    (
        &[
            I::Enter { slot: 0 },
            I::Finish { slot: 0 },
            I::Push(0),
            I::Ret,
        ],
        true,
    ),
    (&[I::Finish { slot: 0 }, I::Push(0), I::Ret], false),
    (&[I::Enter { slot: 0 }, I::Push(0), I::Ret], false),
    (
        &[
            I::Enter { slot: 0 },
            I::Enter { slot: 0 },
            I::Finish { slot: 0 },
            I::Finish { slot: 0 },
            I::Push(0),
            I::Ret,
        ],
        false,
    ),
    (
        &[
            I::Enter { slot: 0 },
            I::Enter { slot: 1 },
            I::Finish { slot: 1 },
            I::Finish { slot: 0 },
            I::Push(0),
            I::Ret,
        ],
        true,
    ),
    (
        &[
            I::Enter { slot: 0 },
            I::Enter { slot: 1 },
            I::Finish { slot: 0 },
            I::Finish { slot: 1 },
            I::Push(0),
            I::Ret,
        ],
        false,
    ),
    (
        &[
            I::Enter { slot: 0 },
            cancel!(0, 0),
            I::Finish { slot: 0 },
            I::Push(0),
            I::Ret,
        ],
        true,
    ),
    (&[cancel!(0, 0), I::Push(0), I::Ret], false),
];

// The body of an `Async` begins at address 4, and its creator goes on behind it.
pub(super) static BODIES: [Case; 11] = [
    (
        &[
            I::Enter { slot: 0 },
            spawn!(1, 5),
            I::End,
            I::Finish { slot: 0 },
            I::Push(0),
            I::Ret,
        ],
        true,
    ),
    (&[spawn!(1, 4), I::End, I::Push(0), I::Ret], false),
    (
        &[
            I::Enter { slot: 0 },
            I::Push(1),
            spawn!(1, 6),
            I::End,
            I::Finish { slot: 0 },
            I::Ret,
        ],
        false,
    ),
    (&[I::End], false),
    (
        &[
            I::Enter { slot: 0 },
            spawn!(1, 6),
            I::Push(1),
            I::End,
            I::Finish { slot: 0 },
            I::Push(0),
            I::Ret,
        ],
        false,
    ),
    (
        &[
            I::Enter { slot: 0 },
            spawn!(1, 6),
            I::Enter { slot: 0 },
            I::End,
            I::Finish { slot: 0 },
            I::Push(0),
            I::Ret,
        ],
        false,
    ),
    (
        &[
            I::Enter { slot: 0 },
            spawn!(1, 7),
            I::Enter { slot: 0 },
            I::Finish { slot: 0 },
            I::End,
            I::Finish { slot: 0 },
            I::Push(0),
            I::Ret,
        ],
        true,
    ),
    (
        &[
            I::Enter { slot: 0 },
            spawn!(1, 6),
            I::Finish { slot: 0 },
            I::End,
            I::Finish { slot: 0 },
            I::Push(0),
            I::Ret,
        ],
        false,
    ),
    (
        &[
            I::Enter { slot: 0 },
            spawn!(1, 6),
            I::Push(0),
            I::Ret,
            I::Finish { slot: 0 },
            I::Push(0),
            I::Ret,
        ],
        false,
    ),
    (
        &[
            I::Enter { slot: 0 },
            spawn!(0, 6),
            cancel!(1, 0),
            I::End,
            I::Finish { slot: 0 },
            I::Push(0),
            I::Ret,
        ],
        true,
    ),
    (
        &[
            I::Enter { slot: 0 },
            spawn!(1, 6),
            cancel!(0, 0),
            I::End,
            I::Finish { slot: 0 },
            I::Push(0),
            I::Ret,
        ],
        false,
    ),
];
