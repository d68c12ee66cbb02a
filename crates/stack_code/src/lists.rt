//! The conditions on the lists of a code.

ghost use Rattle.std.specs.Prelude.{◌≡◌, ◌↔◌, All, IsTrue};
ghost use Rattle.stack_code.specs.Valid.{IsEntry, HasCores, IsCapacity, IsWidth, IsChannel, HasLinks};
ghost use Rattle.stack_code.specs.Valid.{IsStart, HasStarts, HasRoom, HasLists};
ghost use Rattle.stack_code.specs.inner.Rises.{rising_from};

use crate::parts::{ChannelEnds, Entered, Start};
use crate::sketch::Sketch;
use ac_base::MOST_INTS;

fn is_entry(code: &Sketch, entry: u32) -> bool
    ensures { IsTrue result ↔ IsEntry code.now entry }
{
    match code.function(entry) {
        Some(function) => function.params.len() == 0,
        None => false,
    }
}

fn are_entries(code: &Sketch, entries: &[u32]) -> bool
    ensures { IsTrue result ↔ All (IsEntry code.now) entries.now }
{
    entries.iter().all(|entry| is_entry(code, *entry))
}

fn are_capacities(capacities: &[u32]) -> bool
    ensures { IsTrue result ↔ All IsCapacity capacities.now }
{
    capacities
        .iter()
        .all(|capacity| 1 <= *capacity && *capacity <= 64)
}

fn are_widths(widths: &[u32]) -> bool
    ensures { IsTrue result ↔ All IsWidth widths.now }
{
    widths
        .iter()
        .all(|width| 1 <= *width && *width <= MOST_INTS)
}

fn is_channel(code: &Sketch, ends: ChannelEnds) -> bool
    ensures { IsTrue result ↔ IsChannel code.now ends }
{
    let cores = code.entries().len();
    (ends.from as usize) < cores && (ends.to as usize) < cores && ends.from != ends.to
}

fn are_channels(code: &Sketch, ends: &[ChannelEnds]) -> bool
    ensures { IsTrue result ↔ All (IsChannel code.now) ends.now }
{
    ends.iter().all(|ends| is_channel(code, *ends))
}

fn is_start(code: &Sketch, start: Start) -> bool
    ensures { IsTrue result ↔ IsStart code.now start }
{
    start.slot < code.globals() && start.value != 0
}

fn are_starts(code: &Sketch, starts: &[Start]) -> bool
    ensures { IsTrue result ↔ All (IsStart code.now) starts.now }
{
    starts.iter().all(|start| is_start(code, *start))
}

fn rise(starts: &[Start]) -> bool
    ensures { result ≡ rising_from 0 starts.now }
{
    let mut next = 0;
    for start in starts {
        if u64::from(start.slot) < next {
            return false;
        }
        next = u64::from(start.slot) + 1;
    }
    true
}

fn has_room(function: &Entered) -> bool
    ensures { IsTrue result ↔ HasRoom function.now }
{
    function.params.len() <= u64::from(function.words)
}

fn have_room(functions: &[Entered]) -> bool
    ensures { IsTrue result ↔ All HasRoom functions.now }
{
    functions.iter().all(|function| has_room(function))
}

fn has_cores(code: &Sketch) -> bool
    ensures { IsTrue result ↔ HasCores code.now }
{
    let entries = code.entries();
    if entries.len() == 0 {
        return false;
    }
    if entries.len() > 16 {
        return false;
    }
    if code.names().as_slice().len() != entries.len() {
        return false;
    }
    are_entries(code, entries)
}

fn has_links(code: &Sketch) -> bool
    ensures { IsTrue result ↔ HasLinks code.now }
{
    let capacities = code.capacities().as_slice();
    let ends = code.ends();
    let widths = code.widths().as_slice();
    let cores = code.entries().len();
    if capacities.len() > u32::MAX as usize {
        return false;
    }
    if capacities.len() < cores {
        return false;
    }
    if ends.len() != capacities.len() - cores {
        return false;
    }
    if !are_capacities(capacities) {
        return false;
    }
    if widths.len() != ends.len() {
        return false;
    }
    if !are_widths(widths) {
        return false;
    }
    are_channels(code, ends)
}

fn has_starts(code: &Sketch) -> bool
    ensures { IsTrue result ↔ HasStarts code.now }
{
    let starts = code.starts();
    if !rise(starts) {
        return false;
    }
    are_starts(code, starts)
}

/// Whether the lists of a code are as they must be.
pub fn has_lists(code: &Sketch) -> bool
    ensures { IsTrue result ↔ HasLists code.now }
{
    if code.len() > u32::MAX as usize {
        return false;
    }
    if !has_cores(code) {
        return false;
    }
    if !has_links(code) {
        return false;
    }
    if !has_starts(code) {
        return false;
    }
    have_room(code.functions())
}
