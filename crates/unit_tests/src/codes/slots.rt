//! Slots of frames and of the globals.

use super::parts::Case;
use stack_code::Instr as I;

pub(super) static IN_FRAME: [Case; 17] = [
    (&[load!(0, 3), I::Ret], true),
    (&[load!(0, 4), I::Ret], false),
    (&[load!(1, 0), I::Ret], false),
    (&[I::Push(1), store!(0, 3), I::Push(0), I::Ret], true),
    (&[I::Push(1), store!(0, 4), I::Push(0), I::Ret], false),
    (&[arr!(0, 2, 2), I::Drop, I::Push(0), I::Ret], true),
    (&[arr!(0, 2, 3), I::Drop, I::Push(0), I::Ret], false),
    (&[clear!(0, 4), I::Push(0), I::Ret], true),
    (&[clear!(1, 4), I::Push(0), I::Ret], false),
    (
        &[
            I::Enter { slot: 3 },
            I::Finish { slot: 3 },
            I::Push(0),
            I::Ret,
        ],
        true,
    ),
    (
        &[
            I::Enter { slot: 4 },
            I::Finish { slot: 4 },
            I::Push(0),
            I::Ret,
        ],
        false,
    ),
    (&[I::LoadG { slot: 2 }, I::Ret], true),
    (&[I::LoadG { slot: 3 }, I::Ret], false),
    (
        &[I::Push(1), I::StoreG { slot: 2 }, I::Push(0), I::Ret],
        true,
    ),
    (
        &[I::Push(1), I::StoreG { slot: 3 }, I::Push(0), I::Ret],
        false,
    ),
    (&[arr_g!(1, 2), I::Drop, I::Push(0), I::Ret], true),
    (&[arr_g!(1, 3), I::Drop, I::Push(0), I::Ret], false),
];

pub(super) static BLOCKS_AND_INTS: [Case; 8] = [
    (
        &[
            I::Enter { slot: 1 },
            I::Finish { slot: 1 },
            load!(0, 0),
            I::Ret,
        ],
        true,
    ),
    (
        &[
            I::Enter { slot: 1 },
            I::Finish { slot: 1 },
            load!(0, 1),
            I::Ret,
        ],
        false,
    ),
    (
        &[
            I::Push(1),
            store!(0, 1),
            I::Enter { slot: 1 },
            I::Finish { slot: 1 },
            I::Push(0),
            I::Ret,
        ],
        false,
    ),
    (
        &[
            clear!(0, 1),
            I::Enter { slot: 1 },
            I::Finish { slot: 1 },
            I::Push(0),
            I::Ret,
        ],
        true,
    ),
    (
        &[
            clear!(0, 2),
            I::Enter { slot: 1 },
            I::Finish { slot: 1 },
            I::Push(0),
            I::Ret,
        ],
        false,
    ),
    (
        &[
            I::Enter { slot: 1 },
            I::Finish { slot: 1 },
            arr!(0, 1, 2),
            I::Drop,
            I::Push(0),
            I::Ret,
        ],
        false,
    ),
    // In a body the same slot is another one, and a level up it is the same.
    (
        &[
            I::Enter { slot: 1 },
            spawn!(2, 7),
            I::Push(1),
            store!(0, 1),
            I::End,
            I::Finish { slot: 1 },
            I::Push(0),
            I::Ret,
        ],
        true,
    ),
    (
        &[
            I::Enter { slot: 1 },
            spawn!(2, 7),
            I::Push(1),
            store!(1, 1),
            I::End,
            I::Finish { slot: 1 },
            I::Push(0),
            I::Ret,
        ],
        false,
    ),
];

pub(super) static PARAMETERS: [Case; 15] = [
    (&[load!(0, 0), I::Ret], true),
    (&[load!(0, 1), I::Push(0), I::Elem, I::Ret], true),
    (&[load!(0, 1), I::Ret], false),
    (&[I::Push(1), store!(0, 0), I::Push(0), I::Ret], true),
    (&[I::Push(1), store!(0, 1), I::Push(0), I::Ret], false),
    (&[clear!(2, 1), I::Push(0), I::Ret], true),
    (&[clear!(0, 3), I::Push(0), I::Ret], false),
    (&[arr!(0, 0, 1), I::Drop, I::Push(0), I::Ret], true),
    (&[arr!(0, 1, 1), I::Drop, I::Push(0), I::Ret], false),
    (
        &[
            I::Enter { slot: 0 },
            I::Finish { slot: 0 },
            I::Push(0),
            I::Ret,
        ],
        false,
    ),
    (
        &[
            I::Enter { slot: 1 },
            I::Finish { slot: 1 },
            I::Push(0),
            I::Ret,
        ],
        false,
    ),
    (
        &[
            I::Enter { slot: 2 },
            I::Finish { slot: 2 },
            I::Push(0),
            I::Ret,
        ],
        true,
    ),
    // Of a parameter it is not known how many elements it has.
    (&[load!(0, 1), I::Recv { channel: 0 }, I::Ret], false),
    (&[load!(0, 1), I::Send { channel: 0 }, I::Ret], false),
    (
        &[I::Step, I::Push(1), load!(0, 1), call!(1, 2), I::Ret],
        true,
    ),
];
