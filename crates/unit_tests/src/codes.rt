//! Codes that are valid and codes that are not, worked out by hand.

// Instructions of several operands, written on one line.
macro_rules! load {
    ($level:expr, $slot:expr) => {
        stack_code::Instr::Load {
            level: $level,
            slot: $slot,
        }
    };
}

macro_rules! store {
    ($level:expr, $slot:expr) => {
        stack_code::Instr::Store {
            level: $level,
            slot: $slot,
        }
    };
}

macro_rules! arr_g {
    ($slot:expr, $len:expr) => {
        stack_code::Instr::ArrG {
            slot: $slot,
            len: $len,
        }
    };
}

macro_rules! clear {
    ($slot:expr, $len:expr) => {
        stack_code::Instr::Clear {
            slot: $slot,
            len: $len,
        }
    };
}

macro_rules! printf {
    ($text:expr, $count:expr) => {
        stack_code::Instr::Print {
            text: $text,
            count: $count,
        }
    };
}

macro_rules! call {
    ($function:expr, $count:expr) => {
        stack_code::Instr::Call {
            function: $function,
            count: $count,
        }
    };
}

macro_rules! spawn {
    ($slots:expr, $to:expr) => {
        stack_code::Instr::Async {
            slots: $slots,
            to: $to,
        }
    };
}

macro_rules! cancel {
    ($level:expr, $slot:expr) => {
        stack_code::Instr::Cancel {
            level: $level,
            slot: $slot,
        }
    };
}

macro_rules! arr {
    ($level:expr, $slot:expr, $len:expr) => {
        stack_code::Instr::Arr {
            level: $level,
            slot: $slot,
            len: $len,
        }
    };
}

mod lists;
mod parts;
mod shapes;
mod slots;
mod ways;

use self::parts::{Whose, first_wrong};
use self::shapes::{BLOCKS, BODIES, MESSAGES, OPERANDS, RANGES};
use self::slots::{BLOCKS_AND_INTS, IN_FRAME, PARAMETERS};
use self::ways::{CALLS_BACK, WAYS, WAYS_BACK};
use std::test::Fail;

#[test]
fn bodies_are_valid_or_not(rt: HostRuntime) -> Result<(), Fail> {
    for (table, (whose, cases)) in [
        (Whose::First, OPERANDS.as_slice()),
        (Whose::Wide, MESSAGES.as_slice()),
        (Whose::First, RANGES.as_slice()),
        (Whose::First, BLOCKS.as_slice()),
        (Whose::First, BODIES.as_slice()),
        (Whose::First, IN_FRAME.as_slice()),
        (Whose::First, BLOCKS_AND_INTS.as_slice()),
        (Whose::Second, PARAMETERS.as_slice()),
        (Whose::First, WAYS.as_slice()),
        (Whose::First, WAYS_BACK.as_slice()),
        (Whose::Second, CALLS_BACK.as_slice()),
    ]
    .into_iter()
    .enumerate()
    {
        let wrong = first_wrong(rt.alloc(), whose, cases);
        assert_eq!(rt; wrong.ok().ok_or("memory")?, None, "in table {table}");
    }
    Ok(())
}
