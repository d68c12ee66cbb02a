//! The ends of all links of a code are dealt out.

ghost use Rattle.std.specs.Prelude.{◌≡◌, ◌+◌, ◌<◌, ◌≤◌, ◌^◌, All, Some, length, slice_get, IfOk};
ghost use Rattle.run_ends.specs.Dealt.{AreDealt, IsBetween};
ghost use Rattle.run_ends.specs.Unused.{AreUnused, seats_of};

use crate::channels::deal_channels;
use crate::requests::{Requests, deal_requests};
use crate::words::AllSeats;
use ac_base::{NoMemory, Payload};
use channel_ends::RecvEnd;
use completion_word::Words;
use end_ports::CorePorts;
use request_ends::{ReplyEnd, RequestRing};
use stack_code::ChannelEnds;
use std::alloc::Global;

/// The ends of all links: the ports of each core, and the worker's ends of the links of their requests
/// and of the rings of their replies, by the numbers of the cores.
#[derive(Drop)]
pub struct Dealt<'a> {
    pub ports: Vec<CorePorts<'a>>,
    pub asks: Vec<RecvEnd<'a, Payload, RequestRing>>,
    pub replies: Vec<ReplyEnd>,
}

/// Makes the ends of all links over their words, and deals them out. The first links are the channels,
/// which have these ends; then comes one for the requests of each core.
///
/// Conditions: the words have these capacities, the seats are theirs, and nothing was done on them. Each
/// channel is between two cores, and a link of requests has sixteen places. `Err` is want of memory.
pub fn deal<'a>(
    alloc: Global,
    ends: &[ChannelEnds],
    capacities: &[u32],
    words: &'a [Words],
    seats: AllSeats,
) -> Result<Dealt<'a>, NoMemory>
    requires few { length capacities.now < 2 ^ 32 }
    requires unused { AreUnused capacities.now words.now (seats_of seats) }
    requires channels { length seats.channels.items ≡ length ends.now }
    requires cores { All (IsBetween (length seats.requests.items)) ends.now }
    requires requests { (k : _) → k < length seats.requests.items → slice_get capacities.now (length ends.now + k) ≡ Some 16 }
    ensures { IfOk result (λ r. AreDealt ends.now capacities.now (length seats.requests.items) r.ports.items r.asks.items r.replies.items) }
{
    let AllSeats { channels, requests } = seats;
    let Requests {
        mut hands,
        asks,
        replies,
    } = deal_requests(alloc, words, ends.len(), requests)?;
    deal_channels(alloc, ends, capacities, words, channels, &mut hands)?;
    let ports = hands.into_ports(alloc, ends.len() as u32)?;
    Ok(Dealt {
        ports,
        asks,
        replies,
    })
}
