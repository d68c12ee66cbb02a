//! The items before a place.

ghost use Rattle.std.specs.Prelude.{◌≡◌, ◌≤◌, [], OnOk, OnErr, IfOk};
ghost use Rattle.ac_tree.specs.Weight.{item_weight, items_weight};
ghost use Rattle.ac_names.specs.Items.{item_name, item_meaning, counted, global_slots, global_at, past_after, past_all, no_past};
ghost use Rattle.ac_names.specs.Room.{HasCounts};

use crate::meaning::Meaning;
use crate::names::array_len;
use crate::table::Table;
use ac_base::{Name, NoMemory};
use ac_tree::Item;
use std::alloc::Global;

/// How many cores, functions, channels and files stand before a place, and how many slots of globals are given.
#[derive(Clone, Copy, Debug, PartialEq, Eq)]
pub struct Counts {
    pub cores: u32,
    pub functions: u32,
    pub channels: u32,
    pub files: u32,
    pub slots: u32,
}

/// The items before a place: their numbers, their names, and the paths of the files among them.
#[derive(Drop)]
pub struct Past {
    pub counts: Counts,
    pub names: Table,
    pub paths: Table,
}

fn name_of(item: &Item) -> &Name
    ensures { result.now ≡ item_name item.now }
{
    match item {
        Item::Global {
            at: _,
            name,
            size: _,
            value: _,
        } => name,
        Item::Function(function) => &function.name,
        Item::Channel {
            at: _,
            name,
            from: _,
            to: _,
            cap: _,
        } => name,
        Item::File {
            at: _,
            name,
            path: _,
        } => name,
        Item::Core {
            at: _,
            name,
            entry: _,
        } => name,
    }
}

fn global_at(size: Option<i64>, slot: u32) -> Meaning
    ensures { result ≡ global_at size slot }
{
    match size {
        None => Meaning::Global(slot),
        Some(size) => Meaning::GlobalArray {
            slot,
            len: array_len(size),
        },
    }
}

fn global_slots(size: Option<i64>) -> u32
    ensures { result ≡ global_slots size }
{
    match size {
        None => 1,
        Some(size) => array_len(size),
    }
}

impl Counts {
    /// What an item means.
    fn meaning(self, item: &Item) -> Meaning
        ensures { result ≡ item_meaning self item.now }
    {
        match item {
            Item::Global {
                at: _,
                name: _,
                size,
                value: _,
            } => global_at(*size, self.slots),
            Item::Function(_) => Meaning::Function(self.functions),
            Item::Channel { .. } => Meaning::Channel(self.channels),
            Item::File { .. } => Meaning::File(self.files),
            Item::Core { .. } => Meaning::Core(self.cores),
        }
    }

    /// The numbers after an item.
    pub fn counted(self, item: &Item) -> Counts
        requires { HasCounts self (item_weight item.now) }
        ensures { result ≡ counted self item.now }
    {
        match item {
            Item::Global {
                at: _,
                name: _,
                size,
                value: _,
            } => Counts {
                slots: self.slots + global_slots(*size),
                ..self
            },
            Item::Function(_) => Counts {
                functions: self.functions + 1,
                ..self
            },
            Item::Channel { .. } => Counts {
                channels: self.channels + 1,
                ..self
            },
            Item::File { .. } => Counts {
                files: self.files + 1,
                ..self
            },
            Item::Core { .. } => Counts {
                cores: self.cores + 1,
                ..self
            },
        }
    }
}

impl Past {
    /// Before the first item.
    pub fn new(alloc: Global) -> Past
        ensures { result ≡ no_past }
    {
        Past {
            counts: Counts {
                cores: 0,
                functions: 0,
                channels: 0,
                files: 0,
                slots: 0,
            },
            names: Table::new(alloc),
            paths: Table::new(alloc),
        }
    }

    /// Goes past an item. After want of memory what is known of the items is as before.
    pub fn pass(&mut self, item: &Item) -> Result<(), NoMemory>
        requires { HasCounts self.old.counts (item_weight item.now) }
        ensures ok { OnOk result (self.new ≡ past_after self.old item.now) }
        ensures err { OnErr result (self.new ≡ self.old) }
    {
        let counts = self.counts;
        let known = self.paths.len();
        if let Item::File {
            at: _,
            name: _,
            path,
        } = item
        {
            let _ = self.paths.declare(path, Meaning::File(counts.files))?;
        }
        if let Err(fault) = self.names.declare(name_of(item), counts.meaning(item)) {
            self.paths.cut(known);
            return Err(fault);
        }
        self.counts = counts.counted(item);
        Ok(())
    }
}

/// What is known of all items.
pub fn whole(alloc: Global, items: &[Item]) -> Result<Past, NoMemory>
    requires { items_weight items.now ≤ 1048576 }
    ensures { IfOk result (λ past. past ≡ past_all no_past items.now) }
{
    let mut past = Past::new(alloc);
    for item in items {
        past.pass(item)?;
    }
    Ok(past)
}
