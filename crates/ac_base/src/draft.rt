//! A list that grows in room that was reserved before.

ghost use Rattle.std.specs.Prelude.{◌≡◌, ◌+◌, [], ◌∷◌, ◌++◌, ◌<◌, ◌≤◌, length, slice_get, OnOk, OnErr, IfOk, Some};

use crate::list::List;
use crate::memory::NoMemory;
use std::alloc::Global;
use std::marker::Model;

/// A list that grows.
///
/// Contracts see its items and its spare: the number of further items for which it has room.
#[derive(Debug, Drop)]
pub struct Draft<T> {
    items: Vec<T>,
}

impl<T> Model for Draft<T> {
    ghost use Rattle.std.specs.Prelude.{ℕ, ◌-◌, List, vec_len, vec_capacity};
    ghost use Rattle.std.specs.Coded.{coded×, coded_list, coded_ℕ};

    ghost Value = { List T × ℕ };

    ghost coded = { coded× (coded_list T.code) coded_ℕ };

    ghost view = { λ it. (it.items.items, vec_capacity it.items - vec_len it.items) };
}

impl<T> Draft<T> {
    /// No items.
    pub fn new(alloc: Global) -> Draft<T>
        ensures { result.0 ≡ [] }
    {
        Draft {
            items: Vec::new(alloc),
        }
    }

    /// The items of a list. It takes no memory.
    pub fn from_list(list: List<T>) -> Draft<T>
        ensures { result.0 ≡ list }
    {
        Draft {
            items: list.into_vec(),
        }
    }

    /// The items as a list. It takes no memory.
    pub fn into_list(self) -> List<T>
        ensures { result ≡ self.0 }
    {
        let Draft { items } = self;
        List::from_vec(items)
    }

    /// Makes the spare at least n. After want of memory the items are as before.
    pub fn reserve(&mut self, n: u64) -> Result<(), NoMemory>
        ensures items { self.new.0 ≡ self.old.0 }
        ensures ok { OnOk result (n ≤ self.new.1) }
        ensures spare { self.old.1 ≤ self.new.1 }
    {
        self.items.reserve(n as usize)?;
        Ok(())
    }

    /// Appends an item and takes no memory.
    pub fn push(&mut self, item: T)
        requires { 0 < self.old.1 }
        ensures items { self.new.0 ≡ self.old.0 ++ item ∷ [] }
        ensures spare { self.new.1 + 1 ≡ self.old.1 }
    {
        self.items.push_reserved(item);
    }

    /// The items.
    pub fn as_slice(&self) -> &[T]
        ensures { result.now ≡ self.now.0 }
    {
        self.items.as_slice()
    }

    /// The number of items.
    pub fn len(&self) -> u64
        ensures { result ≡ length self.now.0 }
    {
        self.items.len() as u64
    }

    /// The item at a place, counted from 0.
    pub fn get(&self, index: u64) -> &T
        requires { index < length self.now.0 }
        ensures { slice_get self.now.0 index ≡ Some result.now }
    {
        &self.items[index as usize]
    }
}

impl<T: Copy> Draft<T> {
    /// Appends items and takes no memory.
    pub(crate) fn append(&mut self, items: &[T])
        requires { length items.now ≤ self.old.1 }
        ensures items { self.new.0 ≡ self.old.0 ++ items.now }
        ensures spare { self.new.1 + length items.now ≡ self.old.1 }
    {
        for item in items {
            self.push(*item);
        }
    }
}
