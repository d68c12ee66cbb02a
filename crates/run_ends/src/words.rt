//! The words of the links, and the seats of their sides.

ghost use Rattle.std.specs.Prelude.{◌≡◌, ◌≤◌, All, length, IfOk};
ghost use Rattle.stack_code.specs.Valid.{IsCapacity};
ghost use Rattle.run_ends.specs.Unused.{AreUnused, seats_of};

use ac_base::NoMemory;
use completion_word::{OwnerSeat, PeerSeat, Words};
use std::alloc::Global;

/// The seats of the two sides of one link.
#[derive(Drop)]
pub struct Seats {
    pub(crate) owner: OwnerSeat,
    pub(crate) peer: PeerSeat,
}

/// The seats of all links: of the channels, and of the requests of each core.
#[derive(Drop)]
pub struct AllSeats {
    pub(crate) channels: Vec<Seats>,
    pub(crate) requests: Vec<Seats>,
}

/// Words of new links of these capacities, of which the first are channels, and their seats. `Err` is
/// want of memory.
pub fn make_words(
    alloc: Global,
    capacities: &[u32],
    channels: u32,
) -> Result<(Vec<Words>, AllSeats), NoMemory>
    requires sized { All IsCapacity capacities.now }
    requires channels { channels ≤ length capacities.now }
    ensures unused { IfOk result (λ r. AreUnused capacities.now r.0.items (seats_of r.1)) }
    ensures channels { IfOk result (λ r. length r.1.channels.items ≡ channels) }
{
    let mut words = Vec::new(alloc);
    let mut first = Vec::new(alloc);
    let mut others = Vec::new(alloc);
    for (at, capacity) in capacities.iter().enumerate() {
        let (made, owner, peer) = Words::make(alloc, *capacity)?;
        words.push(made)?;
        let seats = Seats { owner, peer };
        if at < channels as usize {
            first.push(seats)?;
        } else {
            others.push(seats)?;
        }
    }
    let seats = AllSeats {
        channels: first,
        requests: others,
    };
    Ok((words, seats))
}
