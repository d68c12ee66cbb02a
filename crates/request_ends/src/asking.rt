//! The end of a core's requests: it offers and withdraws them, and takes the replies.

ghost use Rattle.std.specs.Prelude.{◌≡◌, ◌+◌, ◌-◌, ◌≤◌, ◌<◌, [], ◌++◌, length, slice_get, true, OnOk, IfErr};
ghost use mathlib.Core.List.{IsPrefix};
ghost use Rattle.ac_links.specs.Payloads.{is_request};
ghost use Rattle.core_ports.specs.Ends.{awaits_reply};
ghost use Rattle.core_channels.specs.Learns.{learning_clock};
ghost use Rattle.core_channels.specs.Withdraws.{withdrawing_clock};
ghost use Rattle.channel_ends.specs.Sending.{AreWithin, capacity_of, has_room, known_lead};
ghost use Rattle.channel_ends.specs.Offers.{offering_clock};
ghost use Rattle.channel_ends.specs.Learns.{Learns};
ghost use Rattle.channel_ends.specs.Withdraws.{MayWithdraw, Withdraws};
ghost use Rattle.channel_ends.specs.Pairs.{IsSettledSend, IsSettledRecv};
ghost use Rattle.channel_ends.specs.Settled.{AreEnds, AreSettled, MakeALink};
ghost use Rattle.request_ends.specs.Asking.{end_of, requests_of, IsNewAsk, IsSameAsk};
ghost use Rattle.request_ends.specs.Replying.{HasLooked};
ghost use Rattle.request_ends.specs.Requesting.{Requests, ListWithdraws, ListLearns, NotesOnly};
ghost use Rattle.request_ends.specs.Answered.{Replies, replied_clock, Gathers, HasAllReplies};

use crate::inbox::Inbox;
use crate::marks::{Asked, Marks};
use crate::replying::{ReplyEnd, ReplySide, RequestRing};
use ac_base::{Answer, Clock, NoMemory, Payload};
use channel_ends::{RecvEnd, SendEnd, settle};
use core_channels::{Learning, Offering, Withdrawing};
use std::alloc::Global;
use std::marker::Model;

/// The most requests that are not known to be decided.
const PLACES: u64 = 16;

/// What a core gets that awaits a reply.
#[derive(Debug, Drop)]
pub enum Replied {
    /// The reply to the least request that is neither withdrawn nor replied, with the stamp of the entry
    /// by which the core has it.
    Reply {
        number: u64,
        answer: Answer,
        stamp: u64,
    },
    /// None has come.
    Nothing,
    /// All stamps are used.
    ClockFull,
}

/// The end of a core's requests, for one thread at a time.
///
/// Contracts see the requests with what is known of them, and the replies that the core has had, those
/// that were gathered for it and those that it knows to be on their way. Only `gather` and `settle` take
/// memory, and no call waits.
#[derive(Drop)]
pub struct AskEnd<'a> {
    send: SendEnd<'a, Payload, RequestRing>,
    inbox: Inbox,
    marks: Marks,
    replied: u64,
}

impl<'a> Model for AskEnd<'a> {
    ghost use Rattle.request_ends.specs.Asking.{Asking};

    ghost Value = { Asking };

    ghost use Rattle.request_ends.specs.Marking.{asking_of, IsAsking};

    ghost view = { asking_of };

    ghost invariant = { IsAsking };
}

// Where the mark of a request stands, of so many marks of the last requests.
fn place_of(offered: u64, marks: u64, number: u64) -> u64
    requires fewer { marks ≤ offered }
    requires marked { offered - marks ≤ number }
    ensures { result ≡ number - (offered - marks) }
{
    number - (offered - marks)
}

impl<'a> AskEnd<'a> {
    /// The end over a new sending end and a new ring of replies. `gather` makes its places.
    ///
    /// Conditions: nothing was offered on the one and nothing taken off the other, and the sending end has
    /// sixteen places.
    pub fn new(
        alloc: Global,
        send: SendEnd<'a, Payload, RequestRing>,
        side: ReplySide,
    ) -> AskEnd<'a>
        requires send { (send.notes.offers ≡ []) × (send.payloads ≡ []) }
        requires size { capacity_of send.notes ≡ 16 }
        requires side { side.taken ≡ [] }
        ensures { IsNewAsk send.entry side result }
    {
        AskEnd {
            send,
            inbox: Inbox::new(alloc, side),
            marks: Marks::new(alloc),
            replied: 0,
        }
    }

    /// Offers a request under the next number, with the core's next stamp.
    ///
    /// `NoRoom` comes exactly where sixteen requests stand from the first one on that is not known;
    /// `ClockFull` exactly where there is room and no stamp is left; `NotYet` only where there are both,
    /// and the end knew of no free slot as the call began, or `gather` has to make a place first to note
    /// the request. Each of these hands the request back.
    ///
    /// Conditions: it is a read or a write within the limits of files, and no stamp of an offer or of a
    /// withdrawal is above the clock's last.
    pub fn offer(&mut self, value: Payload, clock: &mut Clock) -> Offering<Payload>
        requires allowed { is_request value ≡ true }
        requires within { AreWithin clock.old self.old.send.notes.offers }
        ensures answer { Requests self.old value clock.old result self.new }
        ensures clock { clock.new ≡ offering_clock clock.old result }
        ensures within { AreWithin clock.new self.new.send.notes.offers }
        ensures same { IsSameAsk self.old self.new }
    {
        if !self.marks.has_place() {
            return self.without_place(value, clock);
        }
        match self.send.offer(value, clock) {
            Offering::Offered { number, stamp } => {
                self.marks.push();
                Offering::Offered { number, stamp }
            }
            Offering::NoRoom(back) => Offering::NoRoom(back),
            Offering::NotYet(back) => Offering::NotYet(back),
            Offering::ClockFull(back) => Offering::ClockFull(back),
        }
    }

    fn has_room(&self) -> bool
        ensures { result ≡ has_room self.now.send.notes }
    {
        self.send.offered() - self.send.known() < PLACES
    }

    // Why a request that has no place is not offered: for want of room, of a stamp, or of that place.
    fn without_place(&self, value: Payload, clock: &Clock) -> Offering<Payload>
        requires { self.now.places ≡ 0 }
        ensures { Requests self.now value clock.now result self.now }
    {
        if !self.has_room() {
            return Offering::NoRoom(value);
        }
        match clock.after(0) {
            Some(_) => Offering::NotYet(value),
            None => Offering::ClockFull(value),
        }
    }

    /// Withdraws the request of this number, or finds that the worker has taken it, which is then known.
    /// The answers are those of a sending end.
    ///
    /// Conditions: the request is made, not withdrawn and not known, and no stamp of an offer or of a
    /// withdrawal is above the clock's last.
    pub fn withdraw(&mut self, number: u64, clock: &mut Clock) -> Withdrawing
        requires open { MayWithdraw (slice_get self.old.send.notes.offers number) }
        requires within { AreWithin clock.old self.old.send.notes.offers }
        ensures answer { Withdraws self.old.send.notes number clock.old result self.new.send.notes }
        ensures list { ListWithdraws (requests_of self.old) number clock.old result (requests_of self.new) }
        ensures end { NotesOnly self.old self.new }
        ensures places { self.old.places ≤ self.new.places }
        ensures clock { clock.new ≡ withdrawing_clock clock.old result }
        ensures within { AreWithin clock.new self.new.send.notes.offers }
        ensures same { IsSameAsk self.old self.new }
    {
        let at = place_of(self.send.offered(), self.marks.len(), number);
        match self.send.withdraw(number, clock) {
            Withdrawing::Withdrawn { stamp } => {
                self.marks.set(at, Asked::Gone);
                self.marks.skip();
                Withdrawing::Withdrawn { stamp }
            }
            Withdrawing::Taken { stamp } => {
                self.marks.set(at, Asked::Started);
                Withdrawing::Taken { stamp }
            }
            Withdrawing::ClockFull => Withdrawing::ClockFull,
        }
    }

    /// Learns how the first request that is not known was decided, by one load of its word. The answers
    /// are those of a sending end.
    pub fn learn(&mut self, clock: &mut Clock) -> Learning
        ensures answer { Learns self.old.send.notes clock.old result self.new.send.notes }
        ensures list { ListLearns (requests_of self.old) clock.old result (requests_of self.new) }
        ensures end { NotesOnly self.old self.new }
        ensures places { self.old.places ≤ self.new.places }
        ensures clock { clock.new ≡ learning_clock clock.old result }
        ensures within { AreWithin clock.old self.old.send.notes.offers → AreWithin clock.new self.new.send.notes.offers }
        ensures same { IsSameAsk self.old self.new }
    {
        match self.send.learn(clock) {
            Learning::Know { number, stamp } => {
                let at = place_of(self.send.offered(), self.marks.len(), number);
                self.marks.set(at, Asked::Started);
                Learning::Know { number, stamp }
            }
            Learning::Room { number, stamp } => Learning::Room { number, stamp },
            Learning::Undecided => Learning::Undecided,
            Learning::AllKnown => Learning::AllKnown,
            Learning::ClockFull => Learning::ClockFull,
        }
    }

    /// Whether a reply is awaited: of the requests that are neither withdrawn nor replied there is a
    /// least one, and it is known that the worker has taken it.
    pub fn awaits(&self) -> bool
        ensures { result ≡ awaits_reply (end_of self.now) }
    {
        self.marks.is_started()
    }

    /// The reply to the least request that is neither withdrawn nor replied.
    ///
    /// `Nothing` comes only where no gathered reply is left and the end knew of none on the ring as the
    /// call began; `ClockFull` only where no stamp is left after that of the entry by which the request
    /// was done.
    ///
    /// Condition: a reply is awaited.
    pub fn reply(&mut self, clock: &mut Clock) -> Replied
        requires { awaits_reply (end_of self.old) ≡ true }
        ensures answer { Replies self.old clock.old result self.new }
        ensures places { self.old.places ≤ self.new.places }
        ensures clock { clock.new ≡ replied_clock clock.old result }
        ensures same { IsSameAsk self.old self.new }
    {
        let Some(of) = self.inbox.next_stamp() else {
            return Replied::Nothing;
        };
        let Some(stamp) = clock.after(of) else {
            return Replied::ClockFull;
        };
        let number = self.send.offered() - self.marks.len();
        let reply = self.inbox.pop();
        clock.set(stamp);
        self.marks.pass();
        self.marks.skip();
        self.replied += 1;
        Replied::Reply {
            number,
            answer: reply.answer,
            stamp,
        }
    }

    /// Takes the replies off the ring that the end knows of, and makes places for the requests to come.
    /// It makes no entry. After want of memory no reply is lost.
    pub fn gather(&mut self) -> Result<(), NoMemory>
        ensures all { Gathers self.old self.new }
        ensures ok { OnOk result ((self.new.items ≡ []) × (0 < self.new.places)) }
    {
        self.marks.reserve(4 * PLACES as u32)?;
        self.inbox.gather()
    }

    /// Lets both ends of the requests and both ends of the replies know all that the other has done, in a
    /// thread that has all of them, and gathers the replies. It makes no entry. After want of memory the
    /// requests are not settled, no reply more is gathered, and it may only know of more of them.
    ///
    /// Condition: the ends are those of one core.
    pub fn settle(
        &mut self,
        recv: &mut RecvEnd<'_, Payload, RequestRing>,
        end: &mut ReplyEnd,
    ) -> Result<(), NoMemory>
        requires pair { AreEnds self.old.send recv.old }
        requires ring { self.old.ring ≡ end.old.ring }
        ensures pair { AreEnds self.new.send recv.new }
        ensures send { IsSettledSend self.old.send self.new.send }
        ensures recv { IsSettledRecv recv.old recv.new }
        ensures list { requests_of self.new ≡ requests_of self.old }
        ensures same { IsSameAsk self.old self.new }
        ensures replies { self.new.replies ≡ self.old.replies }
        ensures came { IsPrefix (self.old.gathered ++ self.old.items) (self.new.gathered ++ self.new.items) }
        ensures places { self.old.places ≤ self.new.places }
        ensures end { HasLooked end.old end.new }
        ensures settled { OnOk result (AreSettled self.new.send recv.new × MakeALink self.new.send recv.new) }
        ensures few { length self.new.send.notes.offers ≤ known_lead self.new.send.notes.offers + 16 }
        ensures ok { OnOk result (HasAllReplies self.new end.new × (0 < self.new.places)) }
        ensures err { IfErr result (λ _. (self.new.send ≡ self.old.send) × (recv.new ≡ recv.old)
            × (self.new.gathered ≡ self.old.gathered)) }
    {
        self.marks.reserve(4 * PLACES as u32)?;
        self.inbox.meet(end)?;
        settle(&mut self.send, recv);
        Ok(())
    }

    /// How many requests there are.
    pub fn offered(&self) -> u64
        ensures { result ≡ length self.now.send.notes.offers }
    {
        self.send.offered()
    }

    /// How many requests there are before the first that is not known.
    pub fn known(&self) -> u64
        ensures { result ≡ known_lead self.now.send.notes.offers }
    {
        self.send.known()
    }

    /// How many replies the core has had.
    pub fn replied(&self) -> u64
        ensures { result ≡ length self.now.replies }
    {
        self.replied
    }
}
