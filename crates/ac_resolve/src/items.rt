//! A whole program without its names.

ghost use Rattle.std.specs.Prelude.{◌≡◌, ◌+◌, ◌<◌, ◌≤◌, ℕ, [], length, OnOk, IfOk};
ghost use Rattle.ac_tree.specs.Weight.{body_weight, params_weight, item_weight, items_weight};
ghost use Rattle.ac_names.specs.Items.{no_past, past_all};
ghost use Rattle.ac_names.specs.Room.{HasCounts};
ghost use Rattle.ac_names.specs.Numbered.{file_paths};
ghost use Rattle.ac_resolve.specs.InPlace.{IsInPlace};
ghost use Rattle.ac_resolve.specs.Resolution.{function_in, functions_in, cores_in, channels_in, starts_in, resolved};
ghost use Rattle.ac_resolve.specs.InPlace.{IsInPlace};
ghost use Rattle.ac_resolve.specs.inner.Walks.{HasTexts, after_function, after_functions, after_global};

use crate::names::{core_of, function_of};
use crate::statements::resolve_body;
use crate::walk::Walk;
use ac_base::{Bytes, List, NoMemory};
use ac_commands::{Channel, Core, Function, Resolved, Start};
use ac_names::{Names, Past, Scopes, capacity_size, kinds_of};
use ac_tree::{Function as Declared, Item};
use ac_types::Checked;
use std::alloc::Global;

/// A function in the scopes of the top level.
fn function_in(alloc: Global, walk: &mut Walk, function: &Declared) -> Result<Function, NoMemory>
    requires labels { walk.old.names.labels ≡ [] }
    requires slot { walk.old.names.slot ≡ 0 }
    requires small { params_weight function.now.params + body_weight function.now.body ≤ 1048576 }
    requires texts { HasTexts walk.old.texts (body_weight function.now.body) }
    ensures walk { OnOk result (walk.new ≡ after_function function.now walk.old) }
    ensures function { IfOk result (λ f. f ≡ function_in function.now walk.old.names.scopes walk.old.texts) }
{
    let name = function.name.copy(alloc)?;
    let params = kinds_of(alloc, function.params.as_slice())?;
    walk.names.scopes.open()?;
    walk.names.declare_params(function.params.as_slice())?;
    let mut body = List::new(alloc);
    resolve_body(alloc, walk, 0, &mut body, function.body.as_slice())?;
    let slots = walk.names.slot;
    walk.names.scopes.close();
    walk.names.slot = 0;
    Ok(Function {
        name,
        is_async: function.is_async,
        gives_int: function.gives_int,
        params,
        slots,
        body,
    })
}

fn functions_in(alloc: Global, walk: &mut Walk, items: &[Item]) -> Result<List<Function>, NoMemory>
    requires labels { walk.old.names.labels ≡ [] }
    requires slot { walk.old.names.slot ≡ 0 }
    requires small { items_weight items.now ≤ 1048576 }
    requires texts { HasTexts walk.old.texts (items_weight items.now) }
    ensures walk { OnOk result (walk.new ≡ after_functions items.now walk.old) }
    ensures functions { IfOk result (λ list. list ≡ functions_in items.now walk.old.names.scopes walk.old.texts) }
{
    let mut list = List::new(alloc);
    for item in items {
        if let Item::Function(function) = item {
            list.push(function_in(alloc, walk, function)?)?;
        }
    }
    Ok(list)
}

fn cores_in(alloc: Global, scopes: &Scopes, items: &[Item]) -> Result<List<Core>, NoMemory>
    ensures { IfOk result (λ list. list ≡ cores_in items.now scopes.now) }
{
    let mut list = List::new(alloc);
    for item in items {
        if let Item::Core { at: _, name, entry } = item {
            list.push(Core {
                name: name.copy(alloc)?,
                entry: function_of(scopes.find(entry)),
            })?;
        }
    }
    Ok(list)
}

fn channels_in(alloc: Global, scopes: &Scopes, checked: &Checked) -> Result<List<Channel>, NoMemory>
    ensures { IfOk result (λ list. list ≡ channels_in checked.now.items 0 checked.now.items scopes.now) }
{
    let items = checked.tree().items.as_slice();
    let channels = checked.channels();
    let mut number = 0;
    let mut list = List::new(alloc);
    for item in items {
        if let Item::Channel {
            at: _,
            name: _,
            from,
            to,
            cap,
        } = item
        {
            prove!(number < channels);
            list.push(Channel {
                from: core_of(scopes.find(from)),
                to: core_of(scopes.find(to)),
                capacity: capacity_size(*cap),
                width: checked.width(number),
            })?;
            number += 1;
        }
    }
    Ok(list)
}

fn files_in(alloc: Global, items: &[Item]) -> Result<List<Bytes>, NoMemory>
    ensures { IfOk result (λ list. list ≡ file_paths items.now) }
{
    let mut list = List::new(alloc);
    for item in items {
        if let Item::File {
            at: _,
            name: _,
            path,
        } = item
        {
            list.push(path.copy(alloc)?)?;
        }
    }
    Ok(list)
}

/// What is known of the items before a place, and what is in the globals among them at the start.
#[derive(Drop)]
struct Globals {
    past: Past,
    starts: List<Start>,
}

impl Globals {
    fn add(&mut self, item: &Item) -> Result<(), NoMemory>
        requires { HasCounts self.old.past.counts (item_weight item.now) }
        ensures { OnOk result (self.new ≡ after_global item.now self.old) }
    {
        if let Item::Global {
            at: _,
            name: _,
            size: None,
            value,
        } = item
        {
            if *value != 0 {
                self.starts.push(Start {
                    slot: self.past.counts.slots,
                    value: *value,
                })?;
            }
        }
        self.past.pass(item)
    }
}

fn globals_in(alloc: Global, items: &[Item]) -> Result<Globals, NoMemory>
    requires { items_weight items.now ≤ 1048576 }
    ensures past { IfOk result (λ g. g.past ≡ past_all no_past items.now) }
    ensures starts { IfOk result (λ g. g.starts ≡ starts_in no_past.counts items.now) }
{
    let mut globals = Globals {
        past: Past::new(alloc),
        starts: List::new(alloc),
    };
    for item in items {
        globals.add(item)?;
    }
    Ok(globals)
}

/// The program without its names. Each slot, function, channel, file, text and label that it names is there.
pub fn resolve(alloc: Global, checked: &Checked) -> Result<Resolved, NoMemory>
    ensures same { IfOk result (λ r. r ≡ resolved checked.now) }
    ensures in_place { IfOk result IsInPlace }
{
    let items = checked.tree().items.as_slice();
    let globals = globals_in(alloc, items)?;
    let Globals { past, starts } = globals;
    let Past {
        counts,
        names,
        paths: _,
    } = past;
    let mut walk = Walk {
        names: Names::outermost(alloc, names)?,
        texts: List::new(alloc),
    };
    let cores = cores_in(alloc, &walk.names.scopes, items)?;
    let channels = channels_in(alloc, &walk.names.scopes, checked)?;
    let files = files_in(alloc, items)?;
    let functions = functions_in(alloc, &mut walk, items)?;
    let Walk { names: _, texts } = walk;
    Ok(Resolved {
        cores,
        functions,
        channels,
        files,
        slots: counts.slots,
        starts,
        texts,
    })
}
