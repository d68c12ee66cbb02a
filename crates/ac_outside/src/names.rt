//! The names that an object outside is asked for.

ghost use Rattle.std.specs.Prelude.{◌≡◌, ◌≤◌, [], length, vec_capacity, IfOk, Some};
ghost use Rattle.std.specs.Option.{option_copied};
ghost use Rattle.ac_outside.specs.Texts.{with_name};
ghost use Rattle.ac_outside.specs.Told.{AddsName};

use ac_base::{Bytes, List, NoMemory};
use std::alloc::Global;
use std::marker::Model;

// How many names are noted at most, and how many bytes each has at most.
const NAMES: usize = 16;

const NAME_BYTES: usize = 4096;

/// Memory for a name.
#[derive(Debug, Drop)]
struct Room {
    bytes: Vec<u8>,
    ghost is_empty: { length bytes.items ≡ 0 },
    ghost is_large: { 4096 ≤ vec_capacity bytes },
}

/// The names that were asked for, in order, in memory that was taken before. Once one does not go in,
/// none is told.
#[derive(Debug, Drop)]
pub(crate) struct Names {
    noted: Vec<Bytes>,
    rooms: Vec<Room>,
    is_whole: bool,
}

impl Model for Names {
    ghost use Rattle.std.specs.Prelude.{◌≡◌, ◌+◌, ◌≤◌, ℕ, List, Some, None, length, vec_capacity, if◌then◌else◌};
    ghost use Rattle.std.specs.declared.option.Option.{Option};

    ghost Value = { Option (List (List ℕ)) };

    ghost view = { λ s. if s.is_whole then Some s.noted.items else None };

    ghost invariant = { λ s. (length s.noted.items + length s.rooms.items ≡ 16) × (16 ≤ vec_capacity s.noted) };
}

fn empty_room(alloc: Global) -> Result<Room, NoMemory> {
    Ok(Room {
        bytes: Vec::with_capacity(alloc, NAME_BYTES)?,
    })
}

fn empty_rooms(alloc: Global) -> Result<Vec<Room>, NoMemory>
    ensures { IfOk result (λ rooms. length rooms.items ≡ 16) }
{
    let mut rooms = Vec::new(alloc);
    for _ in 0..NAMES {
        rooms.push(empty_room(alloc)?)?;
    }
    Ok(rooms)
}

impl Names {
    /// No names.
    pub(crate) fn new(alloc: Global) -> Result<Names, NoMemory>
        ensures { IfOk result (λ names. names ≡ Some []) }
    {
        Ok(Names {
            noted: Vec::with_capacity(alloc, NAMES)?,
            rooms: empty_rooms(alloc)?,
            is_whole: true,
        })
    }

    /// Notes a name.
    pub(crate) fn note(&mut self, name: &[u8])
        ensures after { self.new ≡ with_name self.old name.now }
        ensures adds { AddsName self.old self.new name.now }
    {
        if !self.is_whole {
            return;
        }
        if self.noted.len() >= NAMES || name.len() > NAME_BYTES {
            self.is_whole = false;
            return;
        }
        let Some(room) = self.rooms.pop() else {
            unreachable!();
        };
        let Room { mut bytes } = room;
        bytes.extend_from_slice(name).unwrap();
        self.noted.push(List::from_vec(bytes)).unwrap();
    }

    /// The names, where they are told.
    pub(crate) fn noted(&self) -> Option<&[Bytes]>
        ensures { option_copied result ≡ self.now }
    {
        if self.is_whole {
            Some(self.noted.as_slice())
        } else {
            None
        }
    }
}
