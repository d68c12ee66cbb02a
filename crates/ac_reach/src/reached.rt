//! Which cores reach which functions.

ghost use Rattle.std.specs.Prelude.{◌≡◌, ◌≤◌, length, slice_get, IfOk};
ghost use Rattle.ac_reach.specs.declared.reached.Reached.TheVariants as r;
ghost use Rattle.ac_reach.specs.Reached.{AreAll, AreRows};
ghost use Rattle.ac_reach.specs.inner.Search.{joined, row_from, rows_from};

use crate::search::reached_from;
use ac_base::{List, NoMemory};
use std::alloc::Global;

/// The cores that reach a function.
#[derive(Clone, Copy, Debug, PartialEq, Eq)]
pub enum Reached {
    ByNone,
    ByOne(u32),
    BySeveral,
}

/// For each core whether it reaches each function, and for each function the cores that reach it.
#[derive(Drop)]
pub struct Reach {
    pub flags: List<List<bool>>,
    pub rows: List<Reached>,
}

fn reach_table(
    alloc: Global,
    calls: &[List<u32>],
    entries: &[Option<u32>],
) -> Result<List<List<bool>>, NoMemory>
    ensures { IfOk result (λ table. AreAll calls.now entries.now table) }
{
    let mut table = List::new(alloc);
    for entry in entries {
        table.push(reached_from(alloc, calls, *entry)?)?;
    }
    Ok(table)
}

fn joined(reached: Reached, core: u32) -> Reached
    ensures { result ≡ joined reached core }
{
    match reached {
        Reached::ByNone => Reached::ByOne(core),
        Reached::ByOne(_) => Reached::BySeveral,
        Reached::BySeveral => Reached::BySeveral,
    }
}

fn has_flag(flags: &List<bool>, function: u64) -> Option<bool>
    ensures { result ≡ slice_get flags.now function }
{
    if function < flags.len() {
        Some(*flags.get(function))
    } else {
        None
    }
}

/// Which cores reach a function. There are at most 16.
fn row(table: &[List<bool>], function: u64) -> Reached
    requires { length table.now ≤ 16 }
    ensures { result ≡ row_from function 0 r.ByNone table.now }
{
    let mut reached = Reached::ByNone;
    for (core, flags) in table.iter().enumerate() {
        if let Some(true) = has_flag(flags, function) {
            reached = joined(reached, core as u32);
        }
    }
    reached
}

fn rows(alloc: Global, calls: &[List<u32>], table: &[List<bool>]) -> Result<List<Reached>, NoMemory>
    requires { length table.now ≤ 16 }
    ensures { IfOk result (λ rows. rows ≡ rows_from 0 calls.now table.now) }
{
    let mut rows = List::new(alloc);
    for (function, _row) in calls.iter().enumerate() {
        rows.push(row(table, function as u64))?;
    }
    Ok(rows)
}

/// What cores reach that enter these functions, by the functions that each calls. There are at most 16 cores.
pub fn find_reach(
    alloc: Global,
    calls: &[List<u32>],
    entries: &[Option<u32>],
) -> Result<Reach, NoMemory>
    requires { length entries.now ≤ 16 }
    ensures flags { IfOk result (λ reach. AreAll calls.now entries.now reach.flags) }
    ensures rows { IfOk result (λ reach. AreRows calls.now entries.now reach.rows) }
{
    let flags = reach_table(alloc, calls, entries)?;
    let rows = rows(alloc, calls, flags.as_slice())?;
    Ok(Reach { flags, rows })
}
