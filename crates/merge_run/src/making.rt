//! The parties of a merge as it begins, and the links between them.

ghost use Rattle.std.specs.Prelude.{◌≡◌, ◌+◌, ◌≤◌, ◌<◌, ◌^◌, length, IfOk};
ghost use Rattle.merge_run.specs.inner.Making.{IsUnused, AreUnused, AreNewParties, AreWaysOf, IsNewProducer};

use crate::consumer::Consumer;
use crate::party::MergeParty;
use crate::producer::Producer;
use ac_base::{Clock, NoMemory};
use ac_choice::{Relay, Tagged};
use channel_ends::{RecvEnd, SendEnd, pair};
use completion_word::{OwnerSeat, PeerSeat, Words};
use rtrb::AnyItems;
use settled_rounds::Way;
use std::alloc::Global;

/// How many messages of a channel may be under way.
const CAPACITY: u32 = 4;

/// The seats of the two sides of a channel.
#[derive(Drop)]
pub(crate) struct Seats {
    pub(crate) owner: OwnerSeat,
    pub(crate) peer: PeerSeat,
}

/// Words of a new channel, and their seats.
pub(crate) fn new_words(alloc: Global) -> Result<(Words, Seats), NoMemory>
    ensures { IfOk result (λ r. IsUnused r.0 r.1) }
{
    let (words, owner, peer) = Words::make(alloc, CAPACITY)?;
    Ok((words, Seats { owner, peer }))
}

/// Words of so many new channels, and their seats.
pub(crate) fn all_words(alloc: Global, count: u32) -> Result<(Vec<Words>, Vec<Seats>), NoMemory>
    ensures { IfOk result (λ r. AreUnused count r.0.items r.1.items) }
{
    let mut words = Vec::new(alloc);
    let mut seats = Vec::new(alloc);
    let mut done = 0;
    while done < count {
        let (made, own) = new_words(alloc)?;
        words.push(made)?;
        seats.push(own)?;
        done += 1;
    }
    Ok((words, seats))
}

// A producer with an end of its own, and the end that receives from it.
fn new_producer<'a>(
    alloc: Global,
    words: &'a Words,
    seats: Seats,
    tag: u32,
    width: u32,
    count: u32,
) -> Result<(Producer<'a>, RecvEnd<'a, i64, AnyItems>), NoMemory>
    requires unused { IsUnused words.now seats }
    requires bounds { (tag < width) × (width ≤ 8) × (count ≤ 10000) }
    ensures { IfOk result (λ r. IsNewProducer tag width count r.0 r.1) }
{
    let (end, recv) = pair(alloc, words, seats.owner, seats.peer, CAPACITY)?;
    Ok((
        Producer {
            end,
            tag,
            width,
            count,
            sent: 0,
            clock: Clock::new(0),
        },
        recv,
    ))
}

/// The producers in order, the relay between them and the consumer, and the consumer.
pub(crate) fn new_parties<'a>(
    alloc: Global,
    words: &'a [Words],
    seats: Vec<Seats>,
    out: &'a Words,
    own: Seats,
    count: u32,
) -> Result<Vec<MergeParty<'a>>, NoMemory>
    requires unused { AreUnused (length words.now) words.now seats.items }
    requires out { IsUnused out.now own }
    requires width { (0 < length words.now) × (length words.now ≤ 8) }
    requires count { count ≤ 10000 }
    ensures { IfOk result (λ r. AreNewParties (length words.now) count r.items) }
{
    let width = words.len() as u32;
    let mut parties = Vec::new(alloc);
    let mut ins = Vec::new(alloc);
    let mut tag = 0;
    for place in seats {
        let (producer, recv) = new_producer(alloc, &words[tag as usize], place, tag, width, count)?;
        parties.push(MergeParty::Produces(producer))?;
        ins.push(recv)?;
        tag += 1;
    }
    let (send, end): (SendEnd<'a, Tagged, AnyItems>, RecvEnd<'a, Tagged, AnyItems>) = pair(
        alloc, out, own.owner, own.peer, CAPACITY,
    )?;
    let relay = Relay::new(ins, send);
    // What holds of a relay at any time is asked for, for the proof.
    let _last = relay.last();
    parties.push(MergeParty::Relays(relay))?;
    let consumer = Consumer {
        end,
        received: Vec::new(alloc),
        clock: Clock::new(0),
    };
    parties.push(MergeParty::Consumes(consumer))?;
    Ok(parties)
}

/// A link from each of so many producers to the relay, and one from that to the consumer.
pub(crate) fn ways_of(alloc: Global, width: u32) -> Result<Vec<Way>, NoMemory>
    requires { width ≤ 8 }
    ensures { IfOk result (λ r. AreWaysOf width r.items) }
{
    let mut ways = Vec::new(alloc);
    for tag in 0..width {
        ways.push(Way {
            from: tag,
            to: width,
        })?;
    }
    ways.push(Way {
        from: width,
        to: width + 1,
    })?;
    Ok(ways)
}
