//! The owner's side of a pair: its offers, and what it has noted of each.

ghost use Rattle.std.specs.Prelude.{◌≡◌, ℕ, ◌<◌, ◌^◌, [], length, slice_get, true};
ghost use Rattle.completion_word.specs.Seats.{owner_of, peer_of, IsPeerOf};
ghost use Rattle.core_channels.specs.Learns.{learning_clock};
ghost use Rattle.core_channels.specs.Withdraws.{withdrawing_clock};
ghost use Rattle.channel_ends.specs.Sending.{OwnerNotes, AreWithin, has_room, known_lead, capacity_of};
ghost use Rattle.channel_ends.specs.Offers.{AddsOffer};
ghost use Rattle.channel_ends.specs.Learns.{Learns};
ghost use Rattle.channel_ends.specs.Withdraws.{MayWithdraw, Withdraws};
ghost use Rattle.channel_ends.specs.Closing.{IsSeatOf};
ghost use Rattle.channel_ends.specs.Settled.{AreOfOneLink};

use crate::catching::{catch_up, first_unknown, hear};
use crate::marks::{Heard, Mark};
use ac_base::Clock;
use completion_word::{OwnerSeat, PeerSeat, Withdrawal, Words};
use core_channels::{Learning, Withdrawing};
use std::marker::Model;

/// The seat of the owner, and what it knows beyond the words. Contracts see its offers.
#[derive(Drop)]
pub(crate) struct OwnerSide {
    owner: OwnerSeat,
    // How many offers there are before the first that is not known.
    lead: u64,
    // Of each offer from there on, at its number modulo 64.
    marks: [Mark; 64],
}

impl Model for OwnerSide {
    ghost use Rattle.channel_ends.specs.Sending.{OwnerNotes};

    ghost Value = { OwnerNotes };

    ghost use Rattle.channel_ends.specs.inner.Fields.{notes_of, IsNoted};

    ghost view = { notes_of };

    ghost invariant = { IsNoted };
}

impl OwnerSide {
    pub(crate) fn new(owner: OwnerSeat) -> OwnerSide
        requires { ((owner_of owner).offers ≡ []) × ((owner_of owner).last ≡ 0) }
        ensures table { result.table ≡ owner.seat.table_id }
        ensures none { (result.offers ≡ []) × (result.heard ≡ []) }
    {
        OwnerSide {
            owner,
            lead: 0,
            marks: [Mark::Open; 64],
        }
    }

    pub(crate) fn offered(&self) -> u64
        ensures { result ≡ length self.now.offers }
    {
        self.owner.offered()
    }

    pub(crate) fn known(&self) -> u64
        ensures { result ≡ known_lead self.now.offers }
    {
        self.lead
    }

    pub(crate) fn has_room(&self, places: usize) -> bool
        requires { capacity_of self.now ≡ places }
        ensures { result ≡ has_room self.now }
    {
        self.owner.offered() - self.lead < places as u64
    }

    /// Posts an offer.
    pub(crate) fn offer(&mut self, words: &Words, stamp: u64)
        requires words { self.old.table ≡ words.now.table.shared.table_id }
        requires room { has_room self.old ≡ true }
        requires within { (last : ℕ) × AreWithin last self.old.offers × (last < stamp) }
        requires stamp { stamp < 2 ^ 60 }
        ensures { AddsOffer self.old stamp self.new }
    {
        catch_up(words, &mut self.owner, self.lead);
        let number = self.owner.offered();
        self.marks[(number % 64) as usize] = Mark::Open;
        words.post(&mut self.owner, stamp);
    }

    /// Learns of its first offer that is not known.
    pub(crate) fn learn(&mut self, words: &Words, clock: &mut Clock) -> Learning
        requires words { self.old.table ≡ words.now.table.shared.table_id }
        ensures answer { Learns self.old clock.old result self.new }
        ensures clock { clock.new ≡ learning_clock clock.old result }
    {
        let number = self.lead;
        let offered = self.owner.offered();
        if number == offered {
            return Learning::AllKnown;
        }
        let at = (number % 64) as usize;
        let heard = hear(words, &mut self.owner, number, self.marks[at]);
        let Heard::Decided {
            withdrawn,
            stamp: decided,
        } = heard
        else {
            return Learning::Undecided;
        };
        let Some(stamp) = clock.after(decided) else {
            self.marks[at] = Mark::Seen {
                withdrawn,
                stamp: decided,
            };
            return Learning::ClockFull;
        };
        clock.set(stamp);
        self.marks[at] = Mark::Known;
        self.lead = first_unknown(&self.marks, number, offered);
        if withdrawn {
            Learning::Room { number, stamp }
        } else {
            Learning::Know { number, stamp }
        }
    }

    /// Withdraws an offer, or finds that it is taken.
    pub(crate) fn withdraw(&mut self, words: &Words, number: u64, clock: &mut Clock) -> Withdrawing
        requires words { self.old.table ≡ words.now.table.shared.table_id }
        requires open { MayWithdraw (slice_get self.old.offers number) }
        requires within { AreWithin clock.old self.old.offers }
        ensures answer { Withdraws self.old number clock.old result self.new }
        ensures clock { clock.new ≡ withdrawing_clock clock.old result }
    {
        let at = (number % 64) as usize;
        let taken = match self.marks[at] {
            Mark::Seen { stamp, .. } => stamp,
            _ => {
                let Some(stamp) = clock.after(0) else {
                    return Withdrawing::ClockFull;
                };
                match words.withdraw(&mut self.owner, number, stamp) {
                    Withdrawal::Withdrawn => {
                        clock.set(stamp);
                        return Withdrawing::Withdrawn { stamp };
                    }
                    Withdrawal::Taken { stamp } => stamp,
                }
            }
        };
        let Some(stamp) = clock.after(taken) else {
            self.marks[at] = Mark::Seen {
                withdrawn: false,
                stamp: taken,
            };
            return Withdrawing::ClockFull;
        };
        clock.set(stamp);
        self.marks[at] = Mark::Known;
        self.lead = first_unknown(&self.marks, self.lead, self.owner.offered());
        Withdrawing::Taken { stamp }
    }

    /// Lets it and the peer of these words know all that the other has done.
    pub(crate) fn meet(&mut self, words: &Words, peer: &mut PeerSeat)
        requires words { self.old.table ≡ words.now.table.shared.table_id }
        requires peer { IsPeerOf peer.old words.now }
        ensures side { self.new ≡ record self.old { told = length (peer_of peer.old).decisions } }
        ensures table { peer.new.seat.table_id ≡ peer.old.seat.table_id }
        ensures peer { peer_of peer.new ≡ record (peer_of peer.old) { told_offers = length self.old.offers } }
        ensures link { AreOfOneLink self.new (peer_of peer.old).decisions (peer_of peer.old).look }
    {
        words.meet(&mut self.owner, peer);
    }

    /// The seat.
    pub(crate) fn close(self) -> OwnerSeat
        ensures { IsSeatOf result self }
    {
        let OwnerSide {
            owner,
            lead: _,
            marks: _,
        } = self;
        owner
    }
}
