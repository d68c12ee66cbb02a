//! The sending end of a pair.

ghost use Rattle.std.specs.Prelude.{◌≡◌, ◌≤◌, length, slice_get};
ghost use Rattle.core_channels.specs.Learns.{learning_clock};
ghost use Rattle.core_channels.specs.Withdraws.{withdrawing_clock};
ghost use Rattle.channel_ends.specs.Sending.{AreWithin, known_lead};
ghost use Rattle.channel_ends.specs.Offers.{Offers, offering_clock};
ghost use Rattle.channel_ends.specs.Learns.{Learns};
ghost use Rattle.channel_ends.specs.Withdraws.{MayWithdraw, Withdraws};
ghost use Rattle.channel_ends.specs.Closing.{IsSeatOf};
ghost use Rattle.channel_ends.specs.Pairs.{IsSameSend};

use crate::side::OwnerSide;
use ac_base::Clock;
use completion_word::{OwnerSeat, Words};
use core_channels::{Learning, Offering, Withdrawing};
use rtrb::{Producer, Protocol};
use std::alloc::Global;
use std::marker::Model;

/// The end of a pair that offers, for one thread at a time.
///
/// Contracts see its offers with their stamps and with what they carry, what the words have told of them,
/// and how many free slots of the ring it knows of. Numbers of offers count from 0. None of its calls
/// waits or takes memory. A call that answers `ClockFull` leaves the offers as they were, and keeps what
/// it has heard.
#[derive(Drop)]
pub struct SendEnd<'a, M, P: Protocol<M>> {
    pub(crate) words: &'a Words,
    pub(crate) side: OwnerSide,
    pub(crate) ring: Producer<M, Global, P>,
}

impl<'a, M, P: Protocol<M>> Model for SendEnd<'a, M, P> {
    ghost use Rattle.channel_ends.specs.Sending.{Sending};

    ghost Value = { Sending M };

    ghost use Rattle.channel_ends.specs.inner.Sends.{sending_of, IsSending};

    ghost view = { sending_of };

    ghost invariant = { IsSending };
}

impl<'a, M, P: Protocol<M>> SendEnd<'a, M, P> {
    /// Offers a value under the next number, with the party's next stamp. First it learns, on the words
    /// alone, what it knows of its leading offers.
    ///
    /// `NoRoom` comes exactly where there are as many offers as the ring has slots from the first one on
    /// that is not known; `ClockFull` exactly where there is room and no stamp is left; `NotYet` only
    /// where there are both, and the end knew of no free slot as the call began. Each of these hands the
    /// value back.
    ///
    /// Conditions: the protocol of the ring allows the value, and no stamp of an offer or of a withdrawal
    /// is above the clock's last.
    pub fn offer(&mut self, value: M, clock: &mut Clock) -> Offering<M>
        requires allowed { P.allows self.old.payloads value }
        requires within { AreWithin clock.old self.old.notes.offers }
        ensures answer { Offers self.old value clock.old result self.new }
        ensures clock { clock.new ≡ offering_clock clock.old result }
        ensures within { AreWithin clock.new self.new.notes.offers }
        ensures same { IsSameSend self.old self.new }
    {
        if !self.side.has_room(self.ring.capacity()) {
            return Offering::NoRoom(value);
        }
        let Some(stamp) = clock.after(0) else {
            return Offering::ClockFull(value);
        };
        if self.ring.cached_slots() == 0 && self.ring.slots() == 0 {
            return Offering::NotYet(value);
        }
        let number = self.side.offered();
        self.ring.push_reserved(value);
        self.side.offer(self.words, stamp);
        clock.set(stamp);
        Offering::Offered { number, stamp }
    }

    /// Withdraws the offer of this number, by one exchange on its word, or finds that it is taken, which
    /// is then known.
    ///
    /// `Withdrawn` comes exactly where the exchange was won, with the stamp of the withdrawal; `Taken`
    /// only where the words have told of the taking, in this call or before, with the stamp at which it
    /// is known; `ClockFull` only where no stamp is left for the one or the other.
    ///
    /// Conditions: the offer is made, not withdrawn and not known, and no stamp of an offer or of a
    /// withdrawal is above the clock's last.
    pub fn withdraw(&mut self, number: u64, clock: &mut Clock) -> Withdrawing
        requires open { MayWithdraw (slice_get self.old.notes.offers number) }
        requires within { AreWithin clock.old self.old.notes.offers }
        ensures answer { Withdraws self.old.notes number clock.old result self.new.notes }
        ensures end { self.new ≡ record self.old { notes = self.new.notes } }
        ensures clock { clock.new ≡ withdrawing_clock clock.old result }
        ensures within { AreWithin clock.new self.new.notes.offers }
        ensures same { IsSameSend self.old self.new }
    {
        self.side.withdraw(self.words, number, clock)
    }

    /// Learns how the first offer that is not known was decided, by one load of its word.
    ///
    /// `Know` comes of one that was taken, `Room` of one that was passed, each with the stamp at which
    /// it is known; `AllKnown` exactly where each offer is known; `Undecided` only where the load saw no
    /// decision, and never of an offer whose decision was heard before or told of by a settling;
    /// `ClockFull` only where no stamp is left after the decision's.
    pub fn learn(&mut self, clock: &mut Clock) -> Learning
        ensures answer { Learns self.old.notes clock.old result self.new.notes }
        ensures end { self.new ≡ record self.old { notes = self.new.notes } }
        ensures clock { clock.new ≡ learning_clock clock.old result }
        ensures within { AreWithin clock.old self.old.notes.offers → AreWithin clock.new self.new.notes.offers }
        ensures same { IsSameSend self.old self.new }
    {
        self.side.learn(self.words, clock)
    }

    /// How many offers there are.
    pub fn offered(&self) -> u64
        ensures { result ≡ length self.now.notes.offers }
    {
        self.side.offered()
    }

    /// How many offers there are before the first that is not known.
    pub fn known(&self) -> u64
        ensures { result ≡ known_lead self.now.notes.offers }
    {
        self.side.known()
    }
}

impl<'a, M: Drop, P: Protocol<M>> SendEnd<'a, M, P> {
    /// Gives the seat of the words back. What is left in the ring is dropped with it.
    pub fn close(self) -> OwnerSeat
        ensures { IsSeatOf result self.entry.notes }
    {
        let SendEnd {
            words: _,
            side,
            ring: _,
        } = self;
        side.close()
    }
}
