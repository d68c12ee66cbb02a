//! One core's turn in a round of the worker.

ghost use Rattle.std.specs.Prelude.{◌≡◌, ◌<◌, IsTrue};
ghost use Rattle.file_worker.specs.inner.Copies.{HasRoom};
ghost use Rattle.file_worker.specs.inner.Rounds.{joined};
ghost use Rattle.file_worker.specs.inner.Turns.{Turns, Takes, turned_clock};

use crate::asking::{Answers, Buffers, ask};
use ac_base::{Clock, Entry, Event, Payload};
use ac_outside::Disk;
use channel_ends::RecvEnd;
use core_channels::Receiving;
use request_ends::{Reply, ReplyEnd, RequestRing};

/// What a round has done.
#[derive(Clone, Copy, Debug, PartialEq, Eq)]
pub enum Round {
    /// It made at least one entry.
    Did,
    /// No core had a request that was not decided.
    Quiet,
    /// A core had one, but the request itself or a free place for its reply was not known of.
    NotYet,
    /// A core had one, but all stamps are used.
    ClockFull,
}

/// What has become of the next request of one core.
#[derive(Drop)]
pub(crate) enum Turned {
    /// It is decided, by this entry.
    Made(Entry),
    Nothing,
    NotYet,
    ClockFull,
}

impl Round {
    /// What a round says of two parts of it.
    pub(crate) fn join(self, next: Round) -> Round
        ensures { result ≡ joined self next }
    {
        match (self, next) {
            (Round::Did, _) | (_, Round::Did) => Round::Did,
            (Round::ClockFull, _) | (_, Round::ClockFull) => Round::ClockFull,
            (Round::NotYet, _) | (_, Round::NotYet) => Round::NotYet,
            (Round::Quiet, Round::Quiet) => Round::Quiet,
        }
    }
}

// Takes the next request and does it, where there is a place for its reply.
fn take_next<D: Disk>(
    take: &mut RecvEnd<'_, Payload, RequestRing>,
    put: &mut ReplyEnd,
    link: u32,
    disk: &mut D,
    clock: &mut Clock,
    room: &mut Buffers,
) -> Turned
    requires ready { IsTrue (D.told disk.old).is_ready }
    requires place { 0 < put.old.free }
    requires room { HasRoom room.old }
    ensures turned { Takes link clock.old (record { ask = take.old; reply = put.old }) (D.told disk.old) result
        (record { ask = take.new; reply = put.new }) (D.told disk.new) }
    ensures clock { clock.new ≡ turned_clock clock.old result }
{
    match take.take(clock) {
        Receiving::Took {
            number,
            value,
            stamp,
        } => {
            let Answers { journal, ring } = ask(disk, &value, room);
            put.put(Reply {
                answer: ring,
                of: stamp,
            });
            Turned::Made(Entry {
                stamp,
                turn: 0,
                event: Event::Did {
                    link,
                    number,
                    answer: journal,
                },
            })
        }
        Receiving::Passed { number, stamp } => Turned::Made(Entry {
            stamp,
            turn: 0,
            event: Event::Pass { link, number },
        }),
        Receiving::Nothing => Turned::Nothing,
        Receiving::NotYet => Turned::NotYet,
        Receiving::ClockFull => Turned::ClockFull,
    }
}

/// Does or passes the next request of a core. Where no place for a reply is free, it only looks.
///
/// Condition: the disk may be called, and the memory for an answer was had.
pub(crate) fn turn<D: Disk>(
    take: &mut RecvEnd<'_, Payload, RequestRing>,
    put: &mut ReplyEnd,
    link: u32,
    disk: &mut D,
    clock: &mut Clock,
    room: &mut Buffers,
) -> Turned
    requires ready { IsTrue (D.told disk.old).is_ready }
    requires room { HasRoom room.old }
    ensures turned { Turns link clock.old (record { ask = take.old; reply = put.old }) (D.told disk.old) result
        (record { ask = take.new; reply = put.new }) (D.told disk.new) }
    ensures clock { clock.new ≡ turned_clock clock.old result }
{
    if put.has_place() {
        return take_next(take, put, link, disk, clock, room);
    }
    if take.look() {
        Turned::NotYet
    } else {
        Turned::Nothing
    }
}
