//! One scope: names with their meanings, found by hashing.

ghost use Rattle.std.specs.Prelude.{◌≡◌, [], length, take, OnOk, OnErr, IfOk, is_some, not};
ghost use Rattle.ac_names.specs.Scopes.{in_scope, added};

use crate::meaning::Meaning;
use ac_base::{Name, NoMemory};
use indexmap::IndexSet;
use std::alloc::Global;
use std::marker::Model;

/// A scope.
#[derive(Drop)]
pub struct Table {
    alloc: Global,
    names: IndexSet<Vec<u8>>,
    meanings: Vec<Meaning>,
}

impl Model for Table {
    ghost use Rattle.std.specs.Prelude.{◌≡◌, List, length};
    ghost use Rattle.ac_names.specs.Scopes.{Declaration};
    ghost use Rattle.ac_names.specs.Table.{beside};

    ghost Value = { List Declaration };

    ghost view = { λ t. beside t.names.keys t.meanings.items };

    ghost invariant = { λ t. length t.names.keys ≡ length t.meanings.items };
}

impl Table {
    /// A scope without a declaration.
    pub fn new(alloc: Global) -> Table
        ensures { result ≡ [] }
    {
        Table {
            alloc,
            names: IndexSet::new(alloc),
            meanings: Vec::new(alloc),
        }
    }

    /// Declares a name, unless the scope has it: whether it was new.
    pub fn declare(&mut self, name: &Name, meaning: Meaning) -> Result<bool, NoMemory>
        ensures ok { OnOk result (self.new ≡ added name.now meaning self.old) }
        ensures new { IfOk result (λ b. b ≡ not (is_some (in_scope name.now self.old))) }
        ensures err { OnErr result (self.new ≡ self.old) }
    {
        let key = name.copy(self.alloc)?.into_vec();
        self.meanings.reserve(1)?;
        let (_, is_new) = self.names.insert_full(key)?;
        if is_new {
            self.meanings.push_reserved(meaning);
        }
        Ok(is_new)
    }

    /// The number of declarations.
    pub(crate) fn len(&self) -> usize
        ensures { result ≡ length self.now }
    {
        self.meanings.len()
    }

    /// Takes back what is declared after the first so many declarations.
    pub(crate) fn cut(&mut self, len: usize)
        ensures { self.new ≡ take len self.old }
    {
        self.names.truncate(len);
        self.meanings.truncate(len);
    }

    /// What a name means in this scope.
    pub fn find(&self, name: &Name) -> Option<Meaning>
        ensures { result ≡ in_scope name.now self.now }
    {
        match self.names.get_index_of(name.as_slice()) {
            None => None,
            Some(index) => Some(self.meanings[index]),
        }
    }
}
