//! The file worker over the ends of its cores' requests.

ghost use Rattle.std.specs.Prelude.{◌≡◌, ◌+◌, ◌<◌, ◌^◌, [], length, slice_get, IfOk, OnErr, OnOk, IsTrue, Some};
ghost use Rattle.std.specs.List.{All};
ghost use Rattle.ac_links.specs.Journals.{last_of};
ghost use Rattle.file_worker.specs.Agreement.{WorkerAgrees};
ghost use Rattle.file_worker.specs.Ends.{core_ends, done_on, AreReady, AtEach, IsNew};
ghost use Rattle.file_worker.specs.Rounds.{GoesOn, LooksOnce, Says};
ghost use Rattle.end_ports.specs.SettledLinks.{SettlesRequests};
ghost use Rattle.file_worker.specs.Settling.{MaySettle, SettlesCore, IsSettledWith, LeavesAtHand};
ghost use Rattle.file_worker.specs.Workers.{desk_of, loan_of, seen_of, told_of};

use crate::desk::Desk;
use crate::turns::Round;
use ac_base::{Journal, NoMemory, Payload};
use ac_outside::Disk;
use channel_ends::RecvEnd;
use end_ports::CorePorts;
use request_ends::{ReplyEnd, RequestRing};
use std::alloc::Global;

/// The worker of a run: the peer of the link of each core's requests, from a first link on, with a ring
/// for each core's replies. The disk is lent to it.
///
/// Contracts see its ends and the entries of its journal, what the disk tells, and that it is the disk
/// which was lent.
#[derive(Drop)]
pub struct Worker<'a, 'd, D> {
    desk: Desk<'a>,
    disk: &'d mut D,
}

impl<'a, 'd, D: Disk> Worker<'a, 'd, D> {
    /// A worker that has done nothing, where `first` is the link of core 0.
    ///
    /// Conditions: there is one of each end for each core, none of them was used, and the disk may be
    /// called.
    pub fn new(
        alloc: Global,
        disk: &'d mut D,
        first: u32,
        asks: Vec<RecvEnd<'a, Payload, RequestRing>>,
        replies: Vec<ReplyEnd>,
    ) -> Worker<'a, 'd, D>
        requires both { length asks.items ≡ length replies.items }
        requires links { first + length asks.items < 2 ^ 32 }
        requires new { All IsNew (core_ends asks.items replies.items) }
        ensures first { (desk_of result).first ≡ first }
        ensures ends { (desk_of result).ends ≡ core_ends asks.entry.items replies.items }
        ensures entries { (desk_of result).entries ≡ [] }
        ensures told { told_of D.told result ≡ D.told disk.old }
        ensures loan { loan_of result ≡ disk.entry.ghost_name }
    {
        Worker {
            desk: Desk::new(alloc, first, asks, replies),
            disk,
        }
    }

    /// The number of its cores. Its journal agrees with its ends at any time, and it knows what each
    /// request asks that a settling told of, and of a place for its reply.
    pub fn cores(&self) -> u32
        ensures count { result ≡ length (desk_of self.now).ends }
        ensures links { (desk_of self.now).first + length (desk_of self.now).ends < 2 ^ 32 }
        ensures agrees { WorkerAgrees (desk_of self.now) }
        ensures ready { AreReady (desk_of self.now) }
    {
        self.desk.cores()
    }

    /// How many requests of a core are decided.
    ///
    /// Condition: it is one of its cores.
    pub fn decided(&self, core: u32) -> u64
        requires { core < length (desk_of self.now).ends }
        ensures { (e : _) → slice_get (desk_of self.now).ends core ≡ Some e → result ≡ length e.ask.peer.decisions }
    {
        self.desk.decided(core)
    }

    /// How many requests of a core were done: its other decisions passed what was withdrawn.
    ///
    /// Condition: it is one of its cores.
    pub fn done(&self, core: u32) -> u64
        requires { core < length (desk_of self.now).ends }
        ensures { result ≡ done_on ((desk_of self.now).first + core) (desk_of self.now).entries }
    {
        self.desk.done(core)
    }

    /// The entries that the worker has made.
    pub fn journal(&self) -> &Journal
        ensures { result.now.entries ≡ (desk_of self.now).entries }
    {
        self.desk.journal()
    }

    /// The stamp of its last entry, or 0 where it has made none.
    pub fn last(&self) -> u64
        ensures same { result ≡ last_of 0 (desk_of self.now).entries }
        ensures bound { result < 2 ^ 60 }
    {
        self.desk.last()
    }

    /// Goes over the cores once, in order, and does or passes at most one request of each.
    ///
    /// A request of a bound file is done by exactly one `read_at` or `write_at`, also one of length 0,
    /// and its answer is the disk's. One of a file that is not bound asks nothing of the disk and is
    /// answered `Fault(0)`. Memory and a free place for the reply are had before the request is taken:
    /// after want of memory each core has had its whole turn or none, and all that was done is recorded.
    ///
    /// Condition: the disk may be called.
    pub fn round(&mut self) -> Result<Round, NoMemory>
        requires ready { IsTrue (told_of D.told self.old).is_ready }
        ensures goes_on { GoesOn (seen_of D.told self.old) (seen_of D.told self.new) }
        ensures looked { OnOk result (AtEach LooksOnce (desk_of self.old).ends (desk_of self.new).ends) }
        ensures says { IfOk result (λ r. Says r (seen_of D.told self.old) (seen_of D.told self.new)) }
        ensures loan { loan_of self.new ≡ loan_of self.old }
    {
        self.desk.round(self.disk)
    }

    /// Lets the ports of one core and its own ends of the same requests and replies know all that the
    /// other has done, in a thread that has all of them. It makes no entry. After want of memory what is
    /// at hand for either is as it was.
    ///
    /// Conditions: it is one of its cores, and the ports are that core's.
    pub fn settle(&mut self, core: u32, ports: &mut CorePorts<'_>) -> Result<(), NoMemory>
        requires core { core < length (desk_of self.old).ends }
        requires pair { MaySettle core (desk_of self.old) ports.old.ask.end }
        ensures settles { SettlesCore core (desk_of self.old) ports.old.ask.end (desk_of self.new) ports.new.ask.end }
        ensures ports { SettlesRequests ports.old ports.new }
        ensures ok { OnOk result (IsSettledWith core (desk_of self.new) ports.new.ask) }
        ensures err { OnErr result (LeavesAtHand core (desk_of self.old) ports.old.ask (desk_of self.new) ports.new.ask) }
        ensures told { told_of D.told self.new ≡ told_of D.told self.old }
        ensures loan { loan_of self.new ≡ loan_of self.old }
    {
        self.desk.settle(core, ports)
    }

    /// Its journal, and the disk that was lent to it, which is given back.
    pub fn into_parts(self) -> (Journal, &'d mut D)
        ensures entries { result.0.entries ≡ (desk_of self.entry).entries }
        ensures told { D.told result.1.now ≡ told_of D.told self.entry }
        ensures loan { result.1.ghost_name ≡ loan_of self.entry }
    {
        let Worker { desk, disk } = self;
        (desk.into_journal(), disk)
    }
}
