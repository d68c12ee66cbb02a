//! Memory for pieces of files.

ghost use Rattle.std.specs.Prelude.{◌≡◌, length};

use ac_base::NoMemory;
use std::alloc::Global;

/// Two pieces, one for each side.
#[derive(Drop)]
pub(crate) struct Room {
    pub(crate) first: Vec<u8>,
    pub(crate) second: Vec<u8>,
    ghost one: { length first.items ≡ 65536 },
    ghost other: { length second.items ≡ 65536 },
}

impl Room {
    /// It takes 65,536 bytes twice.
    pub(crate) fn new(alloc: Global) -> Result<Room, NoMemory> {
        Ok(Room {
            first: vec![in alloc; 0u8; 65_536]?,
            second: vec![in alloc; 0u8; 65_536]?,
        })
    }
}
