//! The tables of a program.

ghost use Rattle.std.specs.Prelude.{◌≡◌, ◌+◌, ◌≤◌, [], ◌++◌, length, OnOk, IfOk};
ghost use Rattle.ac_tree.specs.Weight.{body_weight, params_weight, items_weight};
ghost use Rattle.ac_names.specs.Items.{outermost};
ghost use Rattle.ac_types.specs.Items.{signature_of, signatures, core_number, channel_ends, all_ends, function_nodes, carried_in};
ghost use Rattle.ac_types.specs.Nodes.{calls_of, carried_of};
ghost use Rattle.ac_types.specs.Reached.{function_number, entries, calls_in, entries_of};
ghost use Rattle.ac_types.specs.inner.Verdicts.{AreTables};
ghost use Rattle.ac_reach.specs.declared.reached.Reached.TheVariants as r;

use crate::carried::widths;
use crate::items::see_function;
use crate::numbered::{Ends, Signature, Tables};
use crate::seen::Seen;
use crate::statements::Walk;
use ac_base::{List, Name, NoMemory};
use ac_names::{Meaning, Scopes, kinds_of};
use ac_reach::{Reach, Reached, find_reach};
use ac_tree::{Function, Item};
use std::alloc::Global;
use std::mem;

/// The tables of a program, and for each core whether it reaches each function.
#[derive(Drop)]
pub struct Gathered {
    pub tables: Tables,
    pub reach: List<List<bool>>,
}

fn signature(alloc: Global, function: &Function) -> Result<Signature, NoMemory>
    ensures { IfOk result (λ s. s ≡ signature_of function.now) }
{
    let params = kinds_of(alloc, function.params.as_slice())?;
    Ok(Signature {
        is_async: function.is_async,
        gives_int: function.gives_int,
        params,
    })
}

/// How each function is called.
pub fn signatures(alloc: Global, items: &[Item]) -> Result<List<Signature>, NoMemory>
    ensures { IfOk result (λ list. list ≡ signatures items.now) }
{
    let mut list = List::new(alloc);
    for item in items {
        if let Item::Function(function) = item {
            list.push(signature(alloc, function)?)?;
        }
    }
    Ok(list)
}

fn core_number(meaning: Option<Meaning>) -> Option<u32>
    ensures { result ≡ core_number meaning }
{
    match meaning {
        Some(Meaning::Core(number)) => Some(number),
        _ => None,
    }
}

fn function_number(meaning: Option<Meaning>) -> Option<u32>
    ensures { result ≡ function_number meaning }
{
    match meaning {
        Some(Meaning::Function(number)) => Some(number),
        _ => None,
    }
}

fn channel_ends(scopes: &Scopes, from: &Name, to: &Name) -> Ends
    ensures { result ≡ channel_ends scopes.now from.now to.now }
{
    Ends {
        from: core_number(scopes.find(from)),
        to: core_number(scopes.find(to)),
    }
}

/// The ends of each channel.
pub fn all_ends(alloc: Global, scopes: &Scopes, items: &[Item]) -> Result<List<Ends>, NoMemory>
    ensures { IfOk result (λ list. list ≡ all_ends scopes.now items.now) }
{
    let mut list = List::new(alloc);
    for item in items {
        if let Item::Channel {
            at: _,
            name: _,
            from,
            to,
            cap: _,
        } = item
        {
            list.push(channel_ends(scopes, from, to))?;
        }
    }
    Ok(list)
}

/// The function that each core enters, where its entry is one.
pub fn entries(
    alloc: Global,
    scopes: &Scopes,
    items: &[Item],
) -> Result<List<Option<u32>>, NoMemory>
    ensures { IfOk result (λ list. list ≡ entries scopes.now items.now) }
{
    let mut list = List::new(alloc);
    for item in items {
        if let Item::Core {
            at: _,
            name: _,
            entry,
        } = item
        {
            list.push(function_number(scopes.find(entry)))?;
        }
    }
    Ok(list)
}

/// The functions that a function calls. The walk is then where it was, and has seen what the function says of channels.
fn calls(
    alloc: Global,
    walk: &mut Walk,
    tables: &Tables,
    function: &Function,
) -> Result<List<u32>, NoMemory>
    requires labels { walk.old.names.labels ≡ [] }
    requires slot { walk.old.names.slot ≡ 0 }
    requires small { params_weight function.now.params + body_weight function.now.body ≤ 1048576 }
    ensures calls { IfOk result (λ list. list ≡ calls_of (function_nodes function.now tables.now walk.old.names.scopes r.ByNone)) }
    ensures carried { OnOk result (walk.new.seen.carried ≡ walk.old.seen.carried
        ++ carried_of (function_nodes function.now tables.now walk.old.names.scopes r.ByNone)) }
    ensures names { OnOk result (walk.new.names ≡ walk.old.names) }
{
    walk.seen.calls = List::new(alloc);
    see_function(walk, tables, function, Reached::ByNone)?;
    let calls = mem::replace(&mut walk.seen.calls, List::new(alloc));
    Ok(calls)
}

/// The functions that each function calls. The walk is then where it was, and has seen what they say of channels.
pub fn all_calls(
    alloc: Global,
    walk: &mut Walk,
    tables: &Tables,
    items: &[Item],
) -> Result<List<List<u32>>, NoMemory>
    requires labels { walk.old.names.labels ≡ [] }
    requires slot { walk.old.names.slot ≡ 0 }
    requires small { items_weight items.now ≤ 1048576 }
    ensures calls { IfOk result (λ list. list ≡ calls_in tables.now walk.old.names.scopes items.now) }
    ensures carried { OnOk result (walk.new.seen.carried ≡ walk.old.seen.carried ++ carried_in tables.now walk.old.names.scopes items.now) }
    ensures names { OnOk result (walk.new.names ≡ walk.old.names) }
{
    let mut list = List::new(alloc);
    for item in items {
        if let Item::Function(function) = item {
            list.push(calls(alloc, walk, tables, function)?)?;
        }
    }
    Ok(list)
}

/// The tables of a program whose names a walk has at the top level. The walk is then where it was. There are at most 16 cores.
pub fn gather(alloc: Global, walk: &mut Walk, items: &[Item]) -> Result<Gathered, NoMemory>
    requires scopes { walk.old.names.scopes ≡ outermost items.now }
    requires labels { walk.old.names.labels ≡ [] }
    requires slot { walk.old.names.slot ≡ 0 }
    requires few { length (entries_of items.now) ≤ 16 }
    requires small { items_weight items.now ≤ 1048576 }
    ensures tables { IfOk result (λ g. AreTables items.now g) }
    ensures names { OnOk result (walk.new.names ≡ walk.old.names) }
{
    let entered = entries(alloc, &walk.names.scopes, items)?;
    let mut tables = Tables {
        functions: signatures(alloc, items)?,
        channels: all_ends(alloc, &walk.names.scopes, items)?,
        widths: List::new(alloc),
        reached: List::new(alloc),
    };
    walk.seen = Seen::new(alloc);
    let calls = all_calls(alloc, walk, &tables, items)?;
    tables.widths = widths(alloc, walk.seen.carried.as_slice(), tables.channels.len())?;
    let reach = find_reach(alloc, calls.as_slice(), entered.as_slice())?;
    let Reach { flags, rows } = reach;
    tables.reached = rows;
    Ok(Gathered {
        tables,
        reach: flags,
    })
}
