//! The ways that pass no `Step`, and ranks that fall along them.

ghost use Rattle.std.specs.Prelude.{◌≡◌, ◌+◌, ◌<◌, ◌^◌, length, IfOk, MatchOption};
ghost use Rattle.stack_code.specs.Valid.{TakesSteps};
ghost use Rattle.stack_code.specs.Kept.{IsTable};
ghost use Rattle.stack_code.specs.inner.Quiet.{IsLed, IsWays, IsGraph, IsSteady};

use crate::bodies::copy;
use crate::effect::leads;
use crate::instr::Instr;
use crate::shape::{Leads, Shape};
use crate::sketch::Sketch;
use ac_base::{List, NoMemory};
use graph_ranks::{Ways, ranks};
use std::alloc::Global;

fn ways_of(to: Leads) -> Ways
    ensures { IsLed to result }
{
    match to {
        Leads::Stop => Ways {
            one: None,
            other: None,
        },
        Leads::One { to, shape: _ } => Ways {
            one: Some(to),
            other: None,
        },
        Leads::Two {
            next,
            shape: _,
            to,
            other: _,
        } => Ways {
            one: Some(next),
            other: Some(to),
        },
    }
}

fn ways_at(alloc: Global, code: &Sketch, table: &[Option<Shape>], at: u32) -> Result<Ways, NoMemory>
    requires few { length code.now.instrs < 2 ^ 32 }
    requires tabled { IsTable code.now table.now }
    requires inside { at < length code.now.instrs }
    ensures { IfOk result (λ ways. IsWays code.now at ways) }
{
    let none = Ways {
        one: None,
        other: None,
    };
    let Some(shape) = &table[at as usize] else {
        return Ok(none);
    };
    let Some(instr) = code.instr(at) else {
        return Ok(none);
    };
    if let Instr::Step = instr {
        return Ok(none);
    }
    let shape = copy(alloc, shape)?;
    match leads(alloc, code, at, instr, shape)? {
        None => Ok(none),
        Some(to) => Ok(ways_of(to)),
    }
}

fn graph(alloc: Global, code: &Sketch, table: &[Option<Shape>]) -> Result<Vec<Ways>, NoMemory>
    requires few { length code.now.instrs < 2 ^ 32 }
    requires tabled { IsTable code.now table.now }
    ensures { IfOk result (λ it. IsGraph code.now it.items) }
{
    let mut graph = Vec::new(alloc);
    for at in 0..code.len() as u32 {
        let ways = ways_at(alloc, code, table, at)?;
        graph.push(ways)?;
    }
    Ok(graph)
}

/// By address, a rank that falls wherever it goes on without a `Step`; None exactly where a way
/// without a `Step` leads from an address back to it.
pub fn quiet_ranks(
    alloc: Global,
    code: &Sketch,
    table: &[Option<Shape>],
) -> Result<Option<List<u64>>, NoMemory>
    requires few { length code.now.instrs < 2 ^ 32 }
    requires tabled { IsTable code.now table.now }
    ensures { IfOk result (λ found. MatchOption found (TakesSteps code.now → ⊥) (λ it. IsSteady code.now it)) }
{
    let graph = graph(alloc, code, table)?;
    ranks(alloc, graph.as_slice())
}
