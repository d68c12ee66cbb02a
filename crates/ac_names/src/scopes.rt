//! The scopes round a place.

ghost use Rattle.std.specs.Prelude.{◌≡◌, [], ◌∷◌, ◌<◌, ◌^◌, length, OnOk, OnErr, IfOk, is_some, not};
ghost use Rattle.ac_names.specs.Scopes.{visible, in_inner, declared, closed};
ghost use Rattle.ac_names.specs.Cut.{inner_len, cut};

use crate::meaning::Meaning;
use crate::table::Table;
use ac_base::{Name, NoMemory};
use std::alloc::Global;
use std::marker::Model;

/// The scopes round a place in a text, each a table from names to their meanings.
///
/// Contracts see the list of scopes, the innermost first, each a list of declarations in the order of the text.
#[derive(Drop)]
pub struct Scopes {
    alloc: Global,
    // the innermost last
    tables: Vec<Table>,
}

impl Model for Scopes {
    ghost use Rattle.std.specs.Prelude.{List, reverse};
    ghost use Rattle.ac_names.specs.Scopes.{Declaration};

    ghost Value = { List (List Declaration) };

    ghost view = { λ it. reverse it.tables.items };
}

impl Scopes {
    /// No scope.
    pub fn new(alloc: Global) -> Scopes
        ensures { result ≡ [] }
    {
        Scopes {
            alloc,
            tables: Vec::new(alloc),
        }
    }

    /// Opens a scope within those there are. After want of memory the scopes are as before.
    pub fn open(&mut self) -> Result<(), NoMemory>
        ensures ok { OnOk result (self.new ≡ [] ∷ self.old) }
        ensures err { OnErr result (self.new ≡ self.old) }
    {
        self.enter(Table::new(self.alloc))
    }

    /// Makes a table the innermost scope. After want of memory the scopes are as before.
    pub(crate) fn enter(&mut self, table: Table) -> Result<(), NoMemory>
        ensures ok { OnOk result (self.new ≡ table ∷ self.old) }
        ensures err { OnErr result (self.new ≡ self.old) }
    {
        self.tables.push(table)?;
        Ok(())
    }

    /// Closes the innermost scope.
    pub fn close(&mut self)
        ensures { self.new ≡ closed self.old }
    {
        let _ = self.tables.pop();
    }

    /// Declares a name in the innermost scope, unless that scope has it, and says whether it was new there. After want of
    /// memory the scopes are as before.
    pub fn declare(&mut self, name: &Name, meaning: Meaning) -> Result<bool, NoMemory>
        ensures ok { OnOk result (self.new ≡ declared name.now meaning self.old) }
        ensures new { IfOk result (λ b. b ≡ not (is_some (in_inner name.now self.old))) }
        ensures err { OnErr result (self.new ≡ self.old) }
    {
        let len = self.tables.len();
        if len == 0 {
            return Ok(true);
        }
        self.tables[len - 1].declare(name, meaning)
    }

    /// The number of declarations in the innermost scope, or 0 where there is no scope.
    pub(crate) fn inner_len(&self) -> usize
        ensures { result ≡ inner_len self.now }
    {
        match self.tables.last() {
            None => 0,
            Some(table) => table.len(),
        }
    }

    /// Takes back what the innermost scope declares after the first so many declarations.
    pub(crate) fn cut(&mut self, len: usize)
        ensures { self.new ≡ cut len self.old }
    {
        let count = self.tables.len();
        if count == 0 {
            return;
        }
        self.tables[count - 1].cut(len);
    }

    /// What a name means in the innermost scope.
    pub fn find_inner(&self, name: &Name) -> Option<Meaning>
        ensures { result ≡ in_inner name.now self.now }
    {
        match self.tables.last() {
            None => None,
            Some(table) => table.find(name),
        }
    }

    /// What a name means: by the innermost scope that has it. None where no scope has it.
    pub fn find(&self, name: &Name) -> Option<Meaning>
        ensures { result ≡ visible name.now self.now }
    {
        let mut left = self.tables.len();
        while left > 0 {
            left -= 1;
            if let Some(meaning) = self.tables[left].find(name) {
                return Some(meaning);
            }
        }
        None
    }
}
