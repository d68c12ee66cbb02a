//! A search for what is reached from an entry.

ghost use Rattle.std.specs.Prelude.{◌≡◌, slice_get, OnOk, IfOk};
ghost use Rattle.ac_reach.specs.Reached.{AreFlags};
ghost use Rattle.ac_reach.specs.inner.Search.{nothing_found, with_found, with_all, with_entry, with_calls};

use ac_base::{List, NoMemory};
use std::alloc::Global;
use std::marker::Model;

/// For each function whether it is found, and those that are, in the order in which they were found.
#[derive(Drop)]
struct Search {
    flags: Vec<bool>,
    found: Vec<u32>,
}

impl Model for Search {
    ghost use Rattle.ac_reach.specs.inner.Search.{Finding};

    ghost Value = { Finding };

    ghost view = { λ it. record { flags = it.flags.items; found = it.found.items } };
}

impl Search {
    /// Nothing found among so many functions as rows.
    fn new(alloc: Global, calls: &[List<u32>]) -> Result<Search, NoMemory>
        ensures { IfOk result (λ it. it ≡ nothing_found calls.now) }
    {
        let mut flags = Vec::new(alloc);
        for _row in calls {
            flags.push(false)?;
        }
        Ok(Search {
            flags,
            found: Vec::new(alloc),
        })
    }

    /// Adds a function, unless it is found.
    fn add(&mut self, function: u32) -> Result<(), NoMemory>
        ensures { OnOk result (self.new ≡ with_found function self.old) }
    {
        let place = function as usize;
        if place >= self.flags.len() {
            return Ok(());
        }
        if self.flags[place] {
            return Ok(());
        }
        self.found.push(function)?;
        self.flags[place] = true;
        Ok(())
    }

    /// Adds functions.
    fn add_all(&mut self, functions: &[u32]) -> Result<(), NoMemory>
        ensures { OnOk result (self.new ≡ with_all functions.now self.old) }
    {
        for function in functions {
            self.add(*function)?;
        }
        Ok(())
    }

    /// Adds an entry, where there is one.
    fn add_entry(&mut self, entry: Option<u32>) -> Result<(), NoMemory>
        ensures { OnOk result (self.new ≡ with_entry entry self.old) }
    {
        match entry {
            None => Ok(()),
            Some(function) => self.add(function),
        }
    }

    /// Adds the functions that a function calls.
    fn add_calls(&mut self, calls: &[List<u32>], function: u32) -> Result<(), NoMemory>
        ensures { OnOk result (self.new ≡ with_calls calls.now function self.old) }
    {
        match calls.get(function as usize) {
            None => Ok(()),
            Some(row) => self.add_all(row.as_slice()),
        }
    }

    /// The function that was found as the one of that number.
    fn at(&self, place: usize) -> Option<u32>
        ensures { result ≡ slice_get self.now.found place }
    {
        self.found.get(place).copied()
    }

    fn into_flags(self) -> List<bool>
        ensures { result ≡ self.flags }
    {
        let Search { flags, found: _ } = self;
        List::from_vec(flags)
    }
}

/// Whether each function is reached from an entry, by the functions that each calls.
pub fn reached_from(
    alloc: Global,
    calls: &[List<u32>],
    entry: Option<u32>,
) -> Result<List<bool>, NoMemory>
    ensures { IfOk result (λ flags. AreFlags calls.now entry flags) }
{
    let mut search = Search::new(alloc, calls)?;
    search.add_entry(entry)?;
    for next in 0..calls.len() {
        match search.at(next) {
            None => return Ok(search.into_flags()),
            Some(function) => search.add_calls(calls, function)?,
        }
    }
    Ok(search.into_flags())
}
