//! The lists of a code, and which of its addresses are reached.

use super::parts::{Lists, USUAL, code_with};
use ac_base::{List, NoMemory};
use stack_code::Instr::{Load, Push, Ret};
use stack_code::{ChannelEnds, Instr, Start};
use std::alloc::Global;
use std::test::Fail;

const BODY: [Instr; 4] = [Load { level: 0, slot: 0 }, Ret, Push(1), Ret];

static LISTS: [(Lists, bool); 28] = [
    (USUAL, true),
    (
        Lists {
            entries: &[],
            names: 0,
            capacities: &[],
            ends: &[],
            widths: &[],
            ..USUAL
        },
        false,
    ),
    (
        Lists {
            entries: &[0; 16],
            names: 16,
            capacities: &[1; 16],
            ends: &[],
            widths: &[],
            ..USUAL
        },
        true,
    ),
    (
        Lists {
            entries: &[0; 17],
            names: 17,
            capacities: &[1; 17],
            ends: &[],
            widths: &[],
            ..USUAL
        },
        false,
    ),
    (Lists { names: 1, ..USUAL }, false),
    (
        Lists {
            entries: &[0, 1],
            ..USUAL
        },
        false,
    ),
    (
        Lists {
            entries: &[0, 2],
            ..USUAL
        },
        false,
    ),
    (
        Lists {
            capacities: &[4],
            ends: &[],
            widths: &[],
            ..USUAL
        },
        false,
    ),
    (
        Lists {
            capacities: &[64, 1, 64],
            ..USUAL
        },
        true,
    ),
    (
        Lists {
            capacities: &[65, 1, 1],
            ..USUAL
        },
        false,
    ),
    (
        Lists {
            capacities: &[4, 0, 1],
            ..USUAL
        },
        false,
    ),
    (
        Lists {
            ends: &[],
            widths: &[],
            ..USUAL
        },
        false,
    ),
    (
        Lists {
            ends: &[ChannelEnds { from: 1, to: 1 }],
            ..USUAL
        },
        false,
    ),
    (
        Lists {
            ends: &[ChannelEnds { from: 0, to: 2 }],
            ..USUAL
        },
        false,
    ),
    (
        Lists {
            starts: &[Start { slot: 0, value: 1 }, Start { slot: 2, value: -1 }],
            ..USUAL
        },
        true,
    ),
    (
        Lists {
            starts: &[Start { slot: 1, value: 1 }, Start { slot: 1, value: 2 }],
            ..USUAL
        },
        false,
    ),
    (
        Lists {
            starts: &[Start { slot: 2, value: 1 }, Start { slot: 0, value: 2 }],
            ..USUAL
        },
        false,
    ),
    (
        Lists {
            starts: &[Start { slot: 3, value: 1 }],
            ..USUAL
        },
        false,
    ),
    (
        Lists {
            starts: &[Start { slot: 0, value: 0 }],
            ..USUAL
        },
        false,
    ),
    (
        Lists {
            widths: &[2],
            ..USUAL
        },
        true,
    ),
    (
        Lists {
            widths: &[15],
            ..USUAL
        },
        true,
    ),
    (
        Lists {
            widths: &[16],
            ..USUAL
        },
        true,
    ),
    (
        Lists {
            widths: &[17],
            ..USUAL
        },
        false,
    ),
    (
        Lists {
            widths: &[0],
            ..USUAL
        },
        false,
    ),
    (
        Lists {
            widths: &[],
            ..USUAL
        },
        false,
    ),
    (
        Lists {
            widths: &[1, 1],
            ..USUAL
        },
        false,
    ),
    (Lists { words: 2, ..USUAL }, true),
    (Lists { words: 1, ..USUAL }, false),
];

fn makes(alloc: Global, lists: &Lists) -> Result<bool, NoMemory> {
    let body = List::from_vec(Vec::from_slice(alloc, &BODY)?);
    Ok(code_with(alloc, lists, body, 2, 0)?.is_some())
}

#[test]
fn lists_are_as_they_must_be(rt: HostRuntime) -> Result<(), Fail> {
    for (at, (lists, valid)) in LISTS.iter().enumerate() {
        let is_made = makes(rt.alloc(), lists).ok().ok_or("memory")?;
        assert_eq!(rt; is_made, *valid, "case {at}");
    }
    Ok(())
}
