//! What the slots of frames are used for.

ghost use Rattle.std.specs.Prelude.{◌≡◌, ◌⊎◌, [], ◌∷◌, ◌++◌, ℕ, ◌+◌, ◌-◌, ◌<◌, ◌≤◌, ◌^◌, ◌↔◌, Contains, length, map, replicate, slice_get};
ghost use Rattle.std.specs.Prelude.{slice_index, slice_index_or, slice_set, IsTrue, IfOk, OnOk, MatchBool, MatchOption, option_map};
ghost use Rattle.std.specs.List.Sorted.{IsNonDecreasing, IsPermutation};
ghost use Rattle.stack_code.specs.Valid.{home_at, HasOneUse};
ghost use Rattle.stack_code.specs.Kept.{IsTable};
ghost use Rattle.stack_code.specs.inner.Reserve.{named_of, ints_in, block_in, ints_at, block_at, arrays_from, arrays_in};
ghost use Rattle.stack_code.specs.inner.Reserve.{slots_of, HasRow, Adds, AllSorted, Reserves, Taken, IsReserve, Freed};

use crate::bodies::body_at;
use crate::instr::Instr;
use crate::shape::{Home, Shape};
use crate::sketch::Sketch;
use ac_base::{List, NoMemory};
use std::alloc::Global;
use std::mem;

/// So many slots of the frame of a body, from that one on.
#[derive(Clone, Copy, Debug, PartialEq, Eq)]
pub struct Named {
    pub home: Home,
    pub slot: u32,
    pub len: u32,
}

/// By body, the slots of its frame that hold no int: array parameters, and blocks.
#[derive(Drop)]
pub struct Reserved {
    pub functions: Vec<List<u64>>,
    pub asyncs: Vec<List<u64>>,
}

fn home_up(shape: &Shape, level: u32) -> Option<Home>
    ensures { result ≡ home_at shape.now level }
{
    body_at(shape, level).map(|body| body.home)
}

fn slots_up(shape: &Shape, level: u32, slot: u32, len: u32) -> Option<Named>
    ensures { result ≡ option_map (λ home. named_of home slot len) (home_at shape.now level) }
{
    match home_up(shape, level) {
        Some(home) => Some(Named { home, slot, len }),
        None => None,
    }
}

fn loaded_int(code: &Sketch, shape: &Shape, level: u32, slot: u32) -> Option<Named>
    ensures { result ≡ ints_in code.now shape.now (Instr.Load level slot) }
{
    match home_up(shape, level) {
        Some(home) => {
            if code.is_array(home, slot) {
                None
            } else {
                Some(Named { home, slot, len: 1 })
            }
        }
        None => None,
    }
}

// The slots that an instruction names as ints.
fn ints_of(code: &Sketch, shape: &Shape, instr: Instr) -> Option<Named>
    ensures { result ≡ ints_in code.now shape.now instr }
{
    match instr {
        Instr::Load { level, slot } => loaded_int(code, shape, level, slot),
        Instr::Store { level, slot } => slots_up(shape, level, slot, 1),
        Instr::Arr { level, slot, len } => slots_up(shape, level, slot, len),
        Instr::Clear { slot, len } => slots_up(shape, 0, slot, len),
        _ => None,
    }
}

// The slot that an instruction names as a block.
fn block_of(code: &Sketch, shape: &Shape, instr: Instr) -> Option<Named>
    ensures { result ≡ block_in code.now shape.now instr }
{
    match instr {
        Instr::Enter { slot } => slots_up(shape, 0, slot, 1),
        _ => None,
    }
}

fn ints_here(code: &Sketch, table: &[Option<Shape>], at: u32) -> Option<Named>
    ensures { result ≡ ints_at code.now table.now at }
{
    match (table.get(at as usize), code.instr(at)) {
        (Some(Some(shape)), Some(instr)) => ints_of(code, shape, instr),
        _ => None,
    }
}

fn block_here(code: &Sketch, table: &[Option<Shape>], at: u32) -> Option<Named>
    ensures { result ≡ block_at code.now table.now at }
{
    match (table.get(at as usize), code.instr(at)) {
        (Some(Some(shape)), Some(instr)) => block_of(code, shape, instr),
        _ => None,
    }
}

fn arrays_of(alloc: Global, params: &[bool]) -> Result<List<u64>, NoMemory>
    ensures { IfOk result (λ row. row ≡ arrays_from 0 params.now) }
{
    let mut row = List::new(alloc);
    for (at, array) in params.iter().enumerate() {
        if *array {
            row.push(at as u64)?;
        }
    }
    Ok(row)
}

fn row_at(rows: &[List<u64>], at: u32) -> &[u64]
    ensures { result.now ≡ slice_index_or rows.now at [] }
{
    match rows.get(at as usize) {
        Some(row) => row.as_slice(),
        None => &[],
    }
}

fn add_at(rows: &mut Vec<List<u64>>, at: u32, slot: u64) -> Result<(), NoMemory>
    requires { at < length rows.old.items }
    ensures { OnOk result (rows.new.items ≡ slice_set rows.old.items at (slice_index_or rows.old.items at [] ++ slot ∷ [])) }
{
    rows[at as usize].push(slot)?;
    Ok(())
}

// The row from its least number upwards.
fn in_order(row: List<u64>) -> Result<List<u64>, NoMemory>
    ensures same { IfOk result (λ it. IsPermutation row it) }
    ensures sorted { IfOk result (λ it. IsNonDecreasing it) }
{
    let mut items = row.into_vec();
    items.sort()?;
    Ok(List::from_vec(items))
}

// The place of the first number that is not below this one.
fn first_from(row: &[u64], from: u64) -> usize
    requires { IsNonDecreasing row.now }
    ensures bound { result ≤ length row.now }
    ensures below { (k : ℕ) → k < result → slice_index row.now k < from }
    ensures rest { result < length row.now → from ≤ slice_index row.now result }
{
    let mut low = 0;
    let mut high = row.len();
    while low < high {
        let middle = low + (high - low) / 2;
        if row[middle] < from {
            low = middle + 1;
        } else {
            high = middle;
        }
    }
    low
}

// Whether one of the numbers lies there, the end excluded.
fn has_any(row: &[u64], from: u64, to: u64) -> bool
    requires { IsNonDecreasing row.now }
    ensures { IsTrue result ↔ ((x : ℕ) × (Contains row.now x × ((from ≤ x) × (x < to)))) }
{
    let place = first_from(row, from);
    place < row.len() && row[place] < to
}

impl Reserved {
    fn row(&self, home: Home) -> &[u64]
        ensures { result.now ≡ slots_of self.now home }
    {
        match home {
            Home::Function { number } => row_at(self.functions.as_slice(), number),
            Home::Async { at } => row_at(self.asyncs.as_slice(), at),
        }
    }

    // No block yet.
    fn new(alloc: Global, code: &Sketch) -> Result<Reserved, NoMemory>
        ensures functions { IfOk result (λ it. it.functions.items ≡ map arrays_in code.now.functions) }
        ensures asyncs { IfOk result (λ it. it.asyncs.items ≡ replicate (length code.now.instrs) []) }
    {
        let mut functions = Vec::new(alloc);
        for function in code.functions() {
            functions.push(arrays_of(alloc, function.params.as_slice())?)?;
        }
        let mut asyncs = Vec::new(alloc);
        for _ in 0..code.len() {
            asyncs.push(List::new(alloc))?;
        }
        Ok(Reserved { functions, asyncs })
    }

    fn add(&mut self, home: Home, slot: u64) -> Result<(), NoMemory>
        requires { HasRow self.old home }
        ensures { OnOk result (Adds self.old self.new home slot) }
    {
        match home {
            Home::Function { number } => add_at(&mut self.functions, number, slot),
            Home::Async { at } => add_at(&mut self.asyncs, at, slot),
        }
    }

    // Reserves what the instruction at an address names as a block; false where that is a
    // parameter.
    fn take_block(
        &mut self,
        code: &Sketch,
        table: &[Option<Shape>],
        at: u32,
    ) -> Result<bool, NoMemory>
        requires tabled { IsTable code.now table.now }
        requires reserves { Reserves code.now table.now self.old at }
        ensures { IfOk result (λ ok. Taken code.now table.now self.new at ok) }
    {
        let Some(named) = block_here(code, table, at) else {
            return Ok(true);
        };
        match code.param(named.home, named.slot) {
            Some(_) => Ok(false),
            None => {
                self.add(named.home, u64::from(named.slot))?;
                Ok(true)
            }
        }
    }

    // Whether what the instruction at an address names as ints is not reserved.
    fn is_free(&self, code: &Sketch, table: &[Option<Shape>], at: u32) -> bool
        requires tabled { IsTable code.now table.now }
        requires reserve { IsReserve code.now table.now self.now }
        ensures { Freed code.now table.now self.now at result }
    {
        let Some(named) = ints_here(code, table, at) else {
            return true;
        };
        let from = u64::from(named.slot);
        !has_any(self.row(named.home), from, from + u64::from(named.len))
    }
}

// Each row from its least number upwards.
fn sort_rows(alloc: Global, rows: &mut Vec<List<u64>>) -> Result<(), NoMemory>
    ensures { OnOk result (AllSorted rows.old.items rows.new.items) }
{
    for at in 0..rows.len() {
        let row = mem::replace(&mut rows[at], List::new(alloc));
        rows[at] = in_order(row)?;
    }
    Ok(())
}

// All that is reserved; None exactly where a slot is a parameter and a block.
fn reserve(
    alloc: Global,
    code: &Sketch,
    table: &[Option<Shape>],
) -> Result<Option<Reserved>, NoMemory>
    requires few { length code.now.instrs < 2 ^ 32 }
    requires tabled { IsTable code.now table.now }
    ensures { IfOk result (λ found. MatchOption found (HasOneUse code.now → ⊥) (λ r. IsReserve code.now table.now r)) }
{
    let mut reserved = Reserved::new(alloc, code)?;
    for at in 0..code.len() as u32 {
        if !reserved.take_block(code, table, at)? {
            return Ok(None);
        }
    }
    sort_rows(alloc, &mut reserved.functions)?;
    sort_rows(alloc, &mut reserved.asyncs)?;
    Ok(Some(reserved))
}

/// Whether each slot of a frame has one use.
pub fn has_one_use(alloc: Global, code: &Sketch, table: &[Option<Shape>]) -> Result<bool, NoMemory>
    requires few { length code.now.instrs < 2 ^ 32 }
    requires tabled { IsTable code.now table.now }
    ensures { IfOk result (λ ok. MatchBool ok (HasOneUse code.now) (HasOneUse code.now → ⊥)) }
{
    let Some(reserved) = reserve(alloc, code, table)? else {
        return Ok(false);
    };
    for at in 0..code.len() as u32 {
        if !reserved.is_free(code, table, at) {
            return Ok(false);
        }
    }
    Ok(true)
}
