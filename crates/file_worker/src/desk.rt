//! What the worker has beside its disk.

ghost use Rattle.std.specs.Prelude.{◌≡◌, ◌+◌, ◌<◌, ◌^◌, [], length, slice_get, IfOk, OnErr, OnOk, IsTrue, Some};
ghost use Rattle.std.specs.List.{All};
ghost use Rattle.ac_links.specs.Journals.{last_of};
ghost use Rattle.file_worker.specs.Agreement.{WorkerAgrees};
ghost use Rattle.file_worker.specs.Ends.{core_ends, done_on, AreReady, AtEach, IsNew};
ghost use Rattle.file_worker.specs.Rounds.{GoesOn, LooksOnce, Says};
ghost use Rattle.end_ports.specs.SettledLinks.{SettlesRequests};
ghost use Rattle.file_worker.specs.Settling.{MaySettle, SettlesCore, IsSettledWith, LeavesAtHand};
ghost use Rattle.file_worker.specs.inner.Rounds.{seen, TurnsAt};

use crate::asking::Buffers;
use crate::turns::{Round, Turned, turn};
use ac_base::{Clock, Journal, NoMemory, Payload};
use ac_outside::Disk;
use channel_ends::RecvEnd;
use end_ports::CorePorts;
use request_ends::{ReplyEnd, RequestRing};
use std::alloc::Global;
use std::marker::Model;

// How many entries do a request of this link.
fn count_done(journal: &Journal, link: u32) -> u64
    ensures { result ≡ done_on link journal.now.entries }
{
    let mut done: u64 = 0;
    for place in 0..journal.len() {
        if journal.is_done_on(place, link) {
            done += 1;
        }
    }
    done
}

/// The ends of each core's requests, with the journal of what was done. Contracts see the first link,
/// the ends of each core and the entries.
#[derive(Drop)]
pub(crate) struct Desk<'a> {
    asks: Vec<RecvEnd<'a, Payload, RequestRing>>,
    replies: Vec<ReplyEnd>,
    journal: Journal,
    clock: Clock,
    first: u32,
    room: Buffers,
}

impl<'a> Model for Desk<'a> {
    ghost use Rattle.file_worker.specs.Ends.{AtDesk};

    ghost Value = { AtDesk };

    ghost use Rattle.file_worker.specs.inner.Desks.{at_desk, IsAtDesk};

    ghost view = { at_desk };

    ghost invariant = { IsAtDesk };
}

impl<'a> Desk<'a> {
    pub(crate) fn new(
        alloc: Global,
        first: u32,
        asks: Vec<RecvEnd<'a, Payload, RequestRing>>,
        replies: Vec<ReplyEnd>,
    ) -> Desk<'a>
        requires both { length asks.items ≡ length replies.items }
        requires links { first + length asks.items < 2 ^ 32 }
        requires new { All IsNew (core_ends asks.items replies.items) }
        ensures first { result.first ≡ first }
        ensures ends { result.ends ≡ core_ends asks.entry.items replies.items }
        ensures entries { result.entries ≡ [] }
    {
        Desk {
            asks,
            replies,
            journal: Journal::new(alloc),
            clock: Clock::new(0),
            first,
            room: Buffers::new(alloc),
        }
    }

    /// The number of cores. The journal agrees with the ends at any time.
    pub(crate) fn cores(&self) -> u32
        ensures count { result ≡ length self.now.ends }
        ensures links { self.now.first + length self.now.ends < 2 ^ 32 }
        ensures agrees { WorkerAgrees self.now }
        ensures ready { AreReady self.now }
    {
        self.asks.len() as u32
    }

    /// How many requests of a core are decided.
    pub(crate) fn decided(&self, core: u32) -> u64
        requires { core < length self.now.ends }
        ensures { (e : _) → slice_get self.now.ends core ≡ Some e → result ≡ length e.ask.peer.decisions }
    {
        self.asks[core as usize].decided()
    }

    /// How many requests of a core were done.
    pub(crate) fn done(&self, core: u32) -> u64
        requires { core < length self.now.ends }
        ensures { result ≡ done_on (self.now.first + core) self.now.entries }
    {
        count_done(&self.journal, self.first + core)
    }

    pub(crate) fn journal(&self) -> &Journal
        ensures { result.now.entries ≡ self.now.entries }
    {
        &self.journal
    }

    pub(crate) fn last(&self) -> u64
        ensures same { result ≡ last_of 0 self.now.entries }
        ensures bound { result < 2 ^ 60 }
    {
        self.clock.last()
    }

    pub(crate) fn into_journal(self) -> Journal
        ensures { result.entries ≡ self.entry.entries }
    {
        let Desk { journal, .. } = self;
        journal
    }

    // Gives one core its turn. All memory is had before.
    fn turn<D: Disk>(&mut self, disk: &mut D, core: u32) -> Result<Round, NoMemory>
        requires ready { IsTrue (D.told disk.old).is_ready }
        requires core { core < length self.old.ends }
        ensures turn { IfOk result (λ r. TurnsAt core (seen self.old (D.told disk.old)) r (seen self.new (D.told disk.new))) }
        ensures err { OnErr result (seen self.new (D.told disk.new) ≡ seen self.old (D.told disk.old)) }
    {
        self.journal.reserve(1)?;
        self.room.fill()?;
        let at = core as usize;
        let link = self.first + core;
        let (take, put) = (&mut self.asks[at], &mut self.replies[at]);
        match turn(take, put, link, disk, &mut self.clock, &mut self.room) {
            Turned::Made(entry) => {
                self.journal.push(entry);
                Ok(Round::Did)
            }
            Turned::Nothing => Ok(Round::Quiet),
            Turned::NotYet => Ok(Round::NotYet),
            Turned::ClockFull => Ok(Round::ClockFull),
        }
    }

    /// Gives each core its turn.
    pub(crate) fn round<D: Disk>(&mut self, disk: &mut D) -> Result<Round, NoMemory>
        requires ready { IsTrue (D.told disk.old).is_ready }
        ensures goes_on { GoesOn (seen self.old (D.told disk.old)) (seen self.new (D.told disk.new)) }
        ensures looked { OnOk result (AtEach LooksOnce self.old.ends self.new.ends) }
        ensures says { IfOk result (λ r. Says r (seen self.old (D.told disk.old)) (seen self.new (D.told disk.new))) }
    {
        let mut found = Round::Quiet;
        for core in 0..self.cores() {
            found = found.join(self.turn(disk, core)?);
        }
        Ok(found)
    }

    /// Settles the requests of one core, and their replies, with its own ends of them.
    pub(crate) fn settle(&mut self, core: u32, ports: &mut CorePorts<'_>) -> Result<(), NoMemory>
        requires core { core < length self.old.ends }
        requires pair { MaySettle core self.old ports.old.ask.end }
        ensures settles { SettlesCore core self.old ports.old.ask.end self.new ports.new.ask.end }
        ensures ports { SettlesRequests ports.old ports.new }
        ensures ok { OnOk result (IsSettledWith core self.new ports.new.ask) }
        ensures err { OnErr result (LeavesAtHand core self.old ports.old.ask self.new ports.new.ask) }
    {
        let at = core as usize;
        ports.settle_requests(&mut self.asks[at], &mut self.replies[at])
    }
}
