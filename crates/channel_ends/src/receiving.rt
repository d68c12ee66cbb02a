//! The receiving end of a pair.

ghost use Rattle.std.specs.Prelude.{◌≡◌, ◌<◌, length, Some};
ghost use Rattle.completion_word.specs.declared.answers.Look.TheVariants as look;
ghost use Rattle.completion_word.specs.Seats.{peer_of};
ghost use Rattle.channel_ends.specs.Receiving.{Receives, IsAllowed, Sees, receiving_clock};
ghost use Rattle.channel_ends.specs.Pairs.{IsSameRecv};
ghost use Rattle.channel_ends.specs.inner.Takes.{Passes};

use ac_base::Clock;
use completion_word::{Look, PeerSeat, Taking, Words};
use core_channels::Receiving;
use rtrb::{Consumer, Protocol};
use std::alloc::Global;
use std::marker::Model;

/// The end of a pair that takes, for one thread at a time.
///
/// Contracts see its decisions with their stamps and the stamps that they answer, what it has taken out
/// of the ring, one item for each decision, and the items that it knows to be there. None of its calls
/// waits or takes memory.
#[derive(Drop)]
pub struct RecvEnd<'a, M, P: Protocol<M>> {
    pub(crate) words: &'a Words,
    pub(crate) peer: PeerSeat,
    pub(crate) ring: Consumer<M, Global, P>,
}

impl<'a, M, P: Protocol<M>> Model for RecvEnd<'a, M, P> {
    ghost use Rattle.channel_ends.specs.Receiving.{Receiving};

    ghost Value = { Receiving M };

    ghost use Rattle.channel_ends.specs.inner.Recvs.{receiving_of, IsReceiving};

    ghost view = { receiving_of };

    ghost invariant = { IsReceiving };
}

impl<'a, M: Drop, P: Protocol<M>> RecvEnd<'a, M, P> {
    /// Takes the first offer that is not decided, by one exchange on its word, or passes it where it is
    /// withdrawn, and drops its item. The ring is popped only once the one or the other is done.
    ///
    /// `Nothing` comes only where the look of this call saw neither an offer nor a withdrawal, and never
    /// of an offer that a settling told of; `NotYet` only where it saw one, and the end knew of no item
    /// as the call began; `ClockFull` only where no stamp is left after that of what it saw. These leave
    /// the decisions as they were.
    pub fn take(&mut self, clock: &mut Clock) -> Receiving<M>
        ensures answer { Receives self.old clock.old result self.new }
        ensures allowed { IsAllowed P.allows self.old.popped result }
        ensures clock { clock.new ≡ receiving_clock clock.old result }
        ensures same { IsSameRecv self.old self.new }
    {
        match self.words.look(&mut self.peer) {
            Look::Nothing => Receiving::Nothing,
            Look::Offered { stamp: offered } => {
                let Some(stamp) = clock.after(offered) else {
                    return Receiving::ClockFull;
                };
                if self.ring.is_empty() {
                    return Receiving::NotYet;
                }
                let number = self.peer.decided();
                match self.words.take(&mut self.peer, stamp) {
                    Taking::Won => {
                        clock.set(stamp);
                        Receiving::Took {
                            number,
                            value: self.ring.pop_known(),
                            stamp,
                        }
                    }
                    Taking::Withdrawn { stamp: withdrawn } => self.pass(withdrawn, clock),
                }
            }
            Look::Withdrawn { stamp: withdrawn } => {
                if self.ring.is_empty() {
                    return Receiving::NotYet;
                }
                self.pass(withdrawn, clock)
            }
        }
    }

    /// The look of `take` alone: whether the first offer that is not decided stands there, offered or
    /// withdrawn. Nothing is decided.
    pub fn look(&mut self) -> bool
        ensures { Sees self.old result self.new }
    {
        match self.words.look(&mut self.peer) {
            Look::Nothing => false,
            Look::Offered { .. } | Look::Withdrawn { .. } => true,
        }
    }

    // Passes the offer that was seen withdrawn, and drops its item.
    fn pass(&mut self, withdrawn: u64, clock: &mut Clock) -> Receiving<M>
        requires seen { self.old.peer.look ≡ Some (look.Withdrawn withdrawn) }
        requires item { 0 < length self.old.items }
        ensures answer { Passes self.old clock.old withdrawn result self.new }
        ensures clock { clock.new ≡ receiving_clock clock.old result }
    {
        let Some(stamp) = clock.after(withdrawn) else {
            return Receiving::ClockFull;
        };
        let number = self.peer.decided();
        self.words.pass(&mut self.peer, stamp);
        clock.set(stamp);
        drop(self.ring.pop_known());
        Receiving::Passed { number, stamp }
    }

    /// Gives the seat of the words back. What is left in the ring is dropped with it.
    pub fn close(self) -> PeerSeat
        ensures table { result.seat.table_id ≡ self.entry.table }
        ensures view { peer_of result ≡ self.entry.peer }
    {
        let RecvEnd {
            words: _,
            peer,
            ring: _,
        } = self;
        peer
    }
}

impl<'a, M, P: Protocol<M>> RecvEnd<'a, M, P> {
    /// How many offers are decided.
    pub fn decided(&self) -> u64
        ensures { result ≡ length self.now.peer.decisions }
    {
        self.peer.decided()
    }
}
