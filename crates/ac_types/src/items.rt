//! The rules that items break.

ghost use Rattle.std.specs.Prelude.{◌≡◌, ◌+◌, ◌≤◌, ◌<◌, [], length, slice_get, OnOk};
ghost use Rattle.ac_tree.specs.Weight.{body_weight, params_weight, item_weight, items_weight};
ghost use Rattle.ac_types.specs.Items.{around_of, reached_in, global_tests, is_capacity, is_same_core};
ghost use Rattle.ac_types.specs.Items.{link_tests, path_tests, is_no_entry, core_tests, program_tests};
ghost use Rattle.ac_names.specs.Items.{no_past};
ghost use Rattle.ac_types.specs.inner.Seen.{least_broken};
ghost use Rattle.ac_types.specs.inner.Items.{after_param, after_params, after_function, after_item, after_items};

use crate::around::Around;
use crate::judged::{is_declared, is_undeclared, judge_array, judge_once, lacks_one};
use crate::numbered::{Callee, Tables};
use crate::rule::Rule;
use crate::seen::least;
use crate::statements::{Walk, see_body};
use ac_base::NoMemory;
use ac_names::{Meaning, NameKind, Past, is_other};
use ac_reach::Reached;
use ac_tree::{Function, Item, Param};
use std::alloc::Global;

fn judge_global(before: Option<Meaning>, size: Option<i64>) -> Option<Rule>
    ensures { result ≡ least_broken (global_tests before size) }
{
    match size {
        None => judge_once(before),
        Some(size) => judge_array(before, size),
    }
}

fn is_capacity(cap: i64) -> bool
    ensures { result ≡ is_capacity cap }
{
    1 <= cap && cap <= 64
}

fn is_same_core(from: Option<Meaning>, to: Option<Meaning>) -> bool
    ensures { result ≡ is_same_core from to }
{
    match from {
        Some(Meaning::Core(from)) => match to {
            Some(Meaning::Core(to)) => from == to,
            _ => false,
        },
        _ => false,
    }
}

fn judge_link(
    before: Option<Meaning>,
    from: Option<Meaning>,
    to: Option<Meaning>,
    cap: i64,
    channels: u32,
) -> Option<Rule>
    ensures { result ≡ least_broken (link_tests before from to cap channels) }
{
    let is_unknown = lacks_one(from, to);
    let is_unfit = is_other(NameKind::Core, from) || is_other(NameKind::Core, to);
    let is_no_core = !is_unknown && is_unfit;
    let is_too_much = !is_capacity(cap) || channels >= 64;
    let is_wrong = is_same_core(from, to) || is_too_much;
    let rest = least(Rule::ChannelIsAllowed, is_wrong, None);
    let rest = least(Rule::NameFitsItsPlace, is_no_core, rest);
    let rest = least(Rule::NameIsDeclared, is_unknown, rest);
    least(Rule::DeclaredOnce, is_declared(before), rest)
}

fn judge_path(before: Option<Meaning>, files: u32, same: Option<Meaning>) -> Option<Rule>
    ensures { result ≡ least_broken (path_tests before files same) }
{
    let is_wrong = files >= 16 || is_declared(same);
    let rest = least(Rule::FileIsAllowed, is_wrong, None);
    least(Rule::DeclaredOnce, is_declared(before), rest)
}

fn is_no_entry(callee: Option<Callee>) -> bool
    ensures { result ≡ is_no_entry callee }
{
    match callee {
        None => false,
        Some(callee) => !callee.is_async || callee.params != 0,
    }
}

fn judge_core(
    before: Option<Meaning>,
    entry: Option<Meaning>,
    callee: Option<Callee>,
) -> Option<Rule>
    ensures { result ≡ least_broken (core_tests before entry callee) }
{
    let is_wrong = is_no_entry(callee);
    let rest = least(Rule::EntryIsAsyncWithoutParameters, is_wrong, None);
    let is_no_function = is_other(NameKind::Function, entry);
    let rest = least(Rule::NameFitsItsPlace, is_no_function, rest);
    let rest = least(Rule::NameIsDeclared, is_undeclared(entry), rest);
    least(Rule::DeclaredOnce, is_declared(before), rest)
}

/// A program with that many cores.
pub fn judge_program(cores: u32) -> Option<Rule>
    ensures { result ≡ least_broken (program_tests cores) }
{
    least(Rule::NumberOfCoresIsAllowed, cores == 0 || cores > 16, None)
}

fn around_of(function: &Function, reached: Reached) -> Around
    ensures { result ≡ around_of function.now reached }
{
    Around {
        is_async: function.is_async,
        gives_int: function.gives_int,
        depth: 0,
        in_do: false,
        in_loop: false,
        reached,
    }
}

fn see_param(walk: &mut Walk, param: &Param) -> Result<(), NoMemory>
    requires { walk.old.names.slot + 1 < 4294967296 }
    ensures { OnOk result (walk.new ≡ after_param param.now walk.old) }
{
    let before = walk.names.scopes.find_inner(&param.name);
    walk.note(param.at, judge_once(before))?;
    walk.names.declare_param(param)
}

fn see_params(walk: &mut Walk, params: &[Param]) -> Result<(), NoMemory>
    requires { walk.old.names.slot + length params.now < 4294967296 }
    ensures { OnOk result (walk.new ≡ after_params params.now walk.old) }
{
    for param in params {
        see_param(walk, param)?;
    }
    Ok(())
}

/// Sees the nodes of the parameters and the body of a function in the scopes of the top level.
pub fn see_function(
    walk: &mut Walk,
    tables: &Tables,
    function: &Function,
    reached: Reached,
) -> Result<(), NoMemory>
    requires labels { walk.old.names.labels ≡ [] }
    requires slot { walk.old.names.slot ≡ 0 }
    requires small { params_weight function.now.params + body_weight function.now.body ≤ 1048576 }
    ensures { OnOk result (walk.new ≡ after_function tables.now function.now reached walk.old) }
{
    walk.names.scopes.open()?;
    see_params(walk, function.params.as_slice())?;
    let around = around_of(function, reached);
    see_body(walk, tables, around, function.body.as_slice())?;
    walk.names.scopes.close();
    walk.names.slot = 0;
    Ok(())
}

fn reached_in(tables: &Tables, function: u32) -> Reached
    ensures { result ≡ reached_in (slice_get tables.now.reached function) }
{
    let place = u64::from(function);
    if place < tables.reached.len() {
        *tables.reached.get(place)
    } else {
        Reached::ByNone
    }
}

/// Sees the nodes of an item in the scopes of the top level.
fn see_item(walk: &mut Walk, tables: &Tables, past: &Past, item: &Item) -> Result<(), NoMemory>
    requires labels { walk.old.names.labels ≡ [] }
    requires slot { walk.old.names.slot ≡ 0 }
    requires small { item_weight item.now ≤ 1048576 }
    ensures { OnOk result (walk.new ≡ after_item tables.now past.now item.now walk.old) }
{
    let scopes = &walk.names.scopes;
    match item {
        Item::Global {
            at,
            name,
            size,
            value: _,
        } => walk.note(*at, judge_global(past.names.find(name), *size)),
        Item::Function(function) => {
            walk.note(function.at, judge_once(past.names.find(&function.name)))?;
            let reached = reached_in(tables, past.counts.functions);
            see_function(walk, tables, function, reached)
        }
        Item::Channel {
            at,
            name,
            from,
            to,
            cap,
        } => {
            let before = past.names.find(name);
            let channels = past.counts.channels;
            let rule = judge_link(before, scopes.find(from), scopes.find(to), *cap, channels);
            walk.note(*at, rule)
        }
        Item::File { at, name, path } => {
            let before = past.names.find(name);
            let rule = judge_path(before, past.counts.files, past.paths.find(path));
            walk.note(*at, rule)
        }
        Item::Core { at, name, entry } => {
            let entry = scopes.find(entry);
            let rule = judge_core(past.names.find(name), entry, tables.callee(entry));
            walk.note(*at, rule)
        }
    }
}

/// Sees the nodes of all items.
pub fn see_items(
    alloc: Global,
    walk: &mut Walk,
    tables: &Tables,
    items: &[Item],
) -> Result<(), NoMemory>
    requires labels { walk.old.names.labels ≡ [] }
    requires slot { walk.old.names.slot ≡ 0 }
    requires small { items_weight items.now ≤ 1048576 }
    ensures { OnOk result (walk.new ≡ after_items tables.now no_past items.now walk.old) }
{
    let mut past = Past::new(alloc);
    for item in items {
        see_item(walk, tables, &past, item)?;
        past.pass(item)?;
    }
    Ok(())
}
