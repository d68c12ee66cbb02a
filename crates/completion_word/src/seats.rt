//! The two seats of a link. Each belongs to one thread at a time.
ghost use Rattle.std.specs.Prelude.{◌≡◌, ◌+◌, ◌^◌, ◌<◌, ◌≤◌, [], length};
ghost use Rattle.completion_word.specs.Link.{owner_in, owner_view, peer_in, peer_view};
ghost use Rattle.completion_word.specs.inner.Stamps.{AreStamps};
ghost use Rattle.completion_word.specs.Steps.{stamp_seen};

use crate::views::View;
use atomic_table::Seat;

/// The seat of the owner, who posts offers, withdraws them and learns how they were decided.
#[derive(Drop)]
pub struct OwnerSeat {
    pub(crate) seat: Seat<u64, View>,
    pub(crate) offered: u64,
    pub(crate) learned: u64,
    // The stamps of the last 64 offers, each at its number modulo 64.
    pub(crate) stamps: [u64; 64],
    ghost owns: { seat.me ≡ (owner_view (owner_in seat.me.0), []) },
    ghost counts: { (offered ≡ length (owner_in seat.me.0).offers) × (learned ≡ length (owner_in seat.me.0).learned) },
    ghost stamps_kept: { AreStamps stamps (owner_in seat.me.0).offers },
    ghost few: { (offered ≤ (owner_in seat.me.0).last) × ((owner_in seat.me.0).last < 2 ^ 60) },
    ghost near: { (learned ≤ offered) × (offered ≤ learned + seat.table_id.words) × (seat.table_id.words ≤ 64) },
}

/// The seat of the peer, who looks at the offers in their order, and takes each or passes it by.
#[derive(Drop)]
pub struct PeerSeat {
    pub(crate) seat: Seat<u64, View>,
    pub(crate) decided: u64,
    // The stamp that the last look showed, or 0.
    pub(crate) shown: u64,
    ghost decides: { seat.me ≡ (peer_view (peer_in seat.me.0), []) },
    ghost count: { decided ≡ length (peer_in seat.me.0).decisions },
    ghost showed: { shown ≡ stamp_seen (peer_in seat.me.0).look },
}

impl OwnerSeat {
    ghost use Rattle.completion_word.specs.Seats.{owner_of};

    /// How many offers were posted.
    pub fn offered(&self) -> u64
        ensures { result ≡ length (owner_of self.now).offers }
    {
        self.offered
    }

    /// How many offers are learned.
    pub fn learned(&self) -> u64
        ensures { result ≡ length (owner_of self.now).learned }
    {
        self.learned
    }
}

impl PeerSeat {
    ghost use Rattle.completion_word.specs.Seats.{peer_of};

    /// How many offers are decided.
    pub fn decided(&self) -> u64
        ensures { result ≡ length (peer_of self.now).decisions }
    {
        self.decided
    }
}
