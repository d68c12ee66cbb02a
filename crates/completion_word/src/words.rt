//! The words of a link, and the calls of its two seats.
ghost use Rattle.std.specs.Prelude.{◌≡◌, ◌<◌, ◌≤◌};

use crate::answers::{Closed, Learnt, Look, Taking, Withdrawal};
use crate::rule::{
    Check, HearOwner, HearPeer, Learn, LinkRule, LookAt, Note, Pass, Post, Sides, Take, Withdraw,
};
use crate::seats::{OwnerSeat, PeerSeat};
use crate::standing::Standing;
use crate::views::View;
use ac_base::NoMemory;
use atomic_table::{Seat, Table};
use std::alloc::Global;

/// The words of one link. Its two seats share them, each from a thread of its own, and no call
/// waits.
#[derive(Drop)]
pub struct Words {
    pub(crate) table: Table<u64, View, usize, LinkRule, Global>,
    pub(crate) places: usize,
    ghost key: { table.shared.key ≡ places },
    ghost counts: { (table.shared.table_id.words ≡ places) × (table.shared.table_id.slots ≡ 0) },
    ghost sized: { (0 < places) × (places ≤ 64) },
}

impl Words {
    ghost use Rattle.std.specs.Prelude.{◌+◌, ◌^◌, ◌%◌, [], length, IfOk};
    ghost use Rattle.completion_word.specs.Link.{new_owner, new_peer, offer_at, Agreed, Told, owner_view, peer_view, owner_in, peer_in};
    ghost use Rattle.completion_word.specs.Steps.{after_post, after_withdraw, after_learn, after_look, after_take};
    ghost use Rattle.completion_word.specs.Steps.{after_pass, after_told, after_hearing, owner_after_meeting};
    ghost use Rattle.completion_word.specs.Steps.{peer_after_meeting, known_of, owner_note, peer_note, learnt_of};
    ghost use Rattle.completion_word.specs.Steps.{look_of, IsOpen, IsWithdrawalAsTold, SeesFirst, IsLearntAsFound};
    ghost use Rattle.completion_word.specs.Steps.{IsLearntAsTold, IsLookAsTold, SawOfferBelow, SawWithdrawalBelow, AgreesAsTold, AreCounts};
    ghost use Rattle.completion_word.specs.Seats.{owner_of, peer_of, IsOwnerOf, IsPeerOf, places_of};

    /// Words of a new link, none of which is used, and the seats of its two sides. No other call
    /// takes memory.
    pub fn make(alloc: Global, places: u32) -> Result<(Words, OwnerSeat, PeerSeat), NoMemory>
        requires { (0 < places) × (places ≤ 64) }
        ensures places { IfOk result (λ r. places_of r.0 ≡ places) }
        ensures owner { IfOk result (λ r. IsOwnerOf r.1 r.0 × (owner_of r.1 ≡ new_owner)) }
        ensures peer { IfOk result (λ r. IsPeerOf r.2 r.0 × (peer_of r.2 ≡ new_peer)) }
    {
        let places = places as usize;
        let zeros = [0u64; 64];
        let (table, mut seat) = Table::of_words(alloc, &zeros[..places], &places)?;
        let other = table.shared.split_seat::<Sides>(&mut seat);
        Ok((
            Words { table, places },
            OwnerSeat {
                seat,
                offered: 0,
                learned: 0,
                stamps: [0; 64],
            },
            PeerSeat {
                seat: other,
                decided: 0,
                shown: 0,
            },
        ))
    }

    // The word in which an offer stands.
    fn place(&self, number: u64) -> usize
        ensures { result ≡ number % places_of self.now }
    {
        (number % self.places as u64) as usize
    }

    /// Posts an offer, in the word of its number modulo the places.
    pub fn post(&self, owner: &mut OwnerSeat, stamp: u64)
        requires seat { IsOwnerOf owner.old self.now }
        requires room { length (owner_of owner.old).offers
            < length (owner_of owner.old).learned + places_of self.now }
        requires stamp { ((owner_of owner.old).last < stamp) × (stamp < 2 ^ 60) }
        ensures seat { IsOwnerOf owner.new self.now }
        ensures view { owner_of owner.new ≡ after_post stamp (owner_of owner.old) }
    {
        let word = self.place(owner.offered);
        let offered = Standing::Offered { stamp }.word();
        self.table
            .shared
            .store::<Post>(&mut owner.seat, word, offered);
        owner.stamps[(owner.offered % 64) as usize] = stamp;
        owner.offered += 1;
    }

    /// Withdraws an offer, by one exchange on its word. It answers `Taken`, and withdraws nothing,
    /// exactly where the exchange saw the peer's stamp.
    pub fn withdraw(&self, owner: &mut OwnerSeat, number: u64, stamp: u64) -> Withdrawal
        requires seat { IsOwnerOf owner.old self.now }
        requires number { (length (owner_of owner.old).learned ≤ number)
            × (number < length (owner_of owner.old).offers) }
        requires open { IsOpen (offer_at (owner_of owner.old).offers number) }
        requires stamp { ((owner_of owner.old).last < stamp) × (stamp < 2 ^ 60) }
        ensures seat { IsOwnerOf owner.new self.now }
        ensures view { owner_of owner.new ≡ after_withdraw result number stamp (owner_of owner.old) }

        // The owner was told of the decision: it finds that taking.
        ensures told { IsWithdrawalAsTold (owner_of owner.old) number result }
    {
        let word = self.place(number);
        let posted = owner.stamps[(number % 64) as usize];
        let offered = Standing::Offered { stamp: posted }.word();
        let withdrawn = Standing::Withdrawn { stamp }.word();
        let shared = &self.table.shared;
        let found = shared.compare_exchange_with::<Withdraw>(
            &mut owner.seat,
            word,
            offered,
            withdrawn,
            &number,
        );
        if found == offered {
            Withdrawal::Withdrawn
        } else {
            let stamp = Standing::stamp_in(found);
            Withdrawal::Taken { stamp }
        }
    }

    /// Loads the word of the first offer that is not learned. Where it is decided, it is learned,
    /// and the answer says how and with which stamp.
    pub fn learn(&self, owner: &mut OwnerSeat) -> Learnt
        requires seat { IsOwnerOf owner.old self.now }
        requires some { length (owner_of owner.old).learned < length (owner_of owner.old).offers }
        ensures seat { IsOwnerOf owner.new self.now }
        ensures view { owner_of owner.new ≡ after_learn result (owner_of owner.new).saw (owner_of owner.old) }

        // It is `Undecided` exactly where the load saw no decision.
        ensures cause { result ≡ learnt_of (owner_of owner.new).saw }

        // The load saw that offer as its owner left it, or a decision that answers it.
        ensures saw { SeesFirst (owner_of owner.old) (owner_of owner.new).saw }

        // A withdrawal found the offer taken, or the owner was told of its decision: it is that
        // decision.
        ensures found { IsLearntAsFound (owner_of owner.old) result }
        ensures told { IsLearntAsTold (owner_of owner.old) result }
    {
        let word = self.place(owner.learned);
        let found = self.table.shared.load::<Learn>(&mut owner.seat, word);
        match Standing::of(found) {
            Standing::Taken { stamp } => {
                owner.learned += 1;
                Learnt::Taken { stamp }
            }
            Standing::Passed { stamp } => {
                owner.learned += 1;
                Learnt::Passed { stamp }
            }
            _ => Learnt::Undecided,
        }
    }

    /// Loads the word of the first offer that is not decided, and answers what it shows.
    pub fn look(&self, peer: &mut PeerSeat) -> Look
        requires seat { IsPeerOf peer.old self.now }
        ensures seat { IsPeerOf peer.new self.now }
        ensures view { peer_of peer.new ≡ after_look result (peer_of peer.new).saw (peer_of peer.old) }

        // It is `Nothing` exactly where the load saw the word neither offered nor withdrawn.
        ensures cause { result ≡ look_of (peer_of peer.new).saw }

        // The peer was told of the offer: it is not `Nothing`.
        ensures told { IsLookAsTold (peer_of peer.old) result }
    {
        let word = self.place(peer.decided);
        let found = self.table.shared.load::<LookAt>(&mut peer.seat, word);
        match Standing::of(found) {
            Standing::Offered { stamp } => {
                peer.shown = stamp;
                Look::Offered { stamp }
            }
            Standing::Withdrawn { stamp } => {
                peer.shown = stamp;
                Look::Withdrawn { stamp }
            }
            _ => {
                peer.shown = 0;
                Look::Nothing
            }
        }
    }

    /// Takes the offer that the last look showed, by one exchange on its word. It answers
    /// `Withdrawn`, and takes nothing, exactly where the exchange saw the owner's withdrawal.
    /// `pass` may follow.
    pub fn take(&self, peer: &mut PeerSeat, stamp: u64) -> Taking
        requires seat { IsPeerOf peer.old self.now }
        requires look { SawOfferBelow (peer_of peer.old).look stamp }
        requires stamp { stamp < 2 ^ 60 }
        ensures seat { IsPeerOf peer.new self.now }
        ensures view { peer_of peer.new ≡ after_take result stamp (peer_of peer.old) }
    {
        let word = self.place(peer.decided);
        let offered = Standing::Offered { stamp: peer.shown }.word();
        let taken = Standing::Taken { stamp }.word();
        let shared = &self.table.shared;
        let found = shared.compare_exchange::<Take>(&mut peer.seat, word, offered, taken);
        if found == offered {
            peer.decided += 1;
            peer.shown = 0;
            Taking::Won
        } else {
            let stamp = Standing::stamp_in(found);
            peer.shown = stamp;
            Taking::Withdrawn { stamp }
        }
    }

    /// Passes by the offer whose withdrawal the last look or the last taking showed.
    pub fn pass(&self, peer: &mut PeerSeat, stamp: u64)
        requires seat { IsPeerOf peer.old self.now }
        requires look { SawWithdrawalBelow (peer_of peer.old).look stamp }
        requires stamp { stamp < 2 ^ 60 }
        ensures seat { IsPeerOf peer.new self.now }
        ensures view { peer_of peer.new ≡ after_pass stamp (peer_of peer.old) }
    {
        let word = self.place(peer.decided);
        let passed = Standing::Passed { stamp }.word();
        self.table
            .shared
            .store::<Pass>(&mut peer.seat, word, passed);
        peer.decided += 1;
        peer.shown = 0;
    }

    // Tells the peer's seat of the owner. A note is copied off the owner's seat, joined to the
    // peer's, and heard.
    fn tell_peer(&self, owner: &mut Seat<u64, View>, peer: &mut Seat<u64, View>)
        requires seats { (owner.old.table_id ≡ self.now.table.shared.table_id)
            × (peer.old.table_id ≡ self.now.table.shared.table_id) }
        requires owner { owner.old.me ≡ (owner_view (owner_in owner.old.me.0), []) }
        requires peer { peer.old.me ≡ (peer_view (peer_in peer.old.me.0), []) }
        ensures seats { (owner.new.table_id ≡ owner.old.table_id) × (peer.new.table_id ≡ peer.old.table_id) }
        ensures owner { owner.new.me ≡ owner.old.me }
        ensures peer { let note = owner_note (owner_in owner.old.me.0) in
            peer.new.me ≡ (peer_view (after_hearing note (peer_in peer.old.me.0)), []) }
        ensures known { known_of (owner_in owner.old.me.0) ≤ length (peer_in peer.old.me.0).decisions }
    {
        let shared = &self.table.shared;
        let note = shared.split_seat::<Note>(owner);
        shared.join_seat::<Note>(peer, note);
        shared.load::<HearOwner>(peer, 0);
    }

    // Tells the owner's seat of the peer in the same way, and holds what it was told against its
    // own view.
    fn tell_owner(&self, owner: &mut Seat<u64, View>, peer: &mut Seat<u64, View>)
        requires seats { (owner.old.table_id ≡ self.now.table.shared.table_id)
            × (peer.old.table_id ≡ self.now.table.shared.table_id) }
        requires owner { owner.old.me ≡ (owner_view (owner_in owner.old.me.0), []) }
        requires peer { peer.old.me ≡ (peer_view (peer_in peer.old.me.0), []) }
        ensures seats { (owner.new.table_id ≡ owner.old.table_id) × (peer.new.table_id ≡ peer.old.table_id) }
        ensures owner { let note = peer_note (peer_in peer.old.me.0) in
            owner.new.me ≡ (owner_view (after_told note (owner_in owner.old.me.0)), []) }
        ensures peer { peer.new.me ≡ peer.old.me }
        ensures offers { (peer_in peer.old.me.0).told_offers ≤ length (owner_in owner.old.me.0).offers }
        ensures agrees { AgreesAsTold (owner_in owner.new.me.0) }
    {
        let shared = &self.table.shared;
        let note = shared.split_seat::<Note>(peer);
        shared.join_seat::<Note>(owner, note);
        shared.load::<HearPeer>(owner, 0);
        shared.load::<Check>(owner, 0);
    }

    /// Tells the owner of all decisions and of the peer's last look, and the peer of all offers. No
    /// word changes, and nothing else of the two views.
    pub fn meet(&self, owner: &mut OwnerSeat, peer: &mut PeerSeat) -> Closed
        requires { IsOwnerOf owner.old self.now × IsPeerOf peer.old self.now }
        ensures seats { IsOwnerOf owner.new self.now × IsPeerOf peer.new self.now }
        ensures counts { AreCounts result (owner_of owner.new) (peer_of peer.new) }
        ensures owner { owner_of owner.new ≡ owner_after_meeting (peer_of peer.old) (owner_of owner.old) }
        ensures peer { peer_of peer.new ≡ peer_after_meeting (owner_of owner.old) (peer_of peer.old) }

        // What the word rule says of offers, withdrawals, decisions, their stamps and the last look
        // holds of the two views together.
        ensures agreed { Agreed (places_of self.now) (owner_of owner.new) (peer_of peer.new) }
    {
        self.tell_peer(&mut owner.seat, &mut peer.seat);
        self.tell_owner(&mut owner.seat, &mut peer.seat);
        Closed {
            offered: owner.offered,
            decided: peer.decided,
            learned: owner.learned,
        }
    }

    /// Ends the link, and says how far its two sides came.
    pub fn close(self, owner: OwnerSeat, peer: PeerSeat) -> Closed
        requires { IsOwnerOf owner self × IsPeerOf peer self }
        ensures counts { AreCounts result (owner_of owner) (peer_of peer) }
        ensures order { (result.learned ≤ result.decided)
            × (result.decided ≤ result.offered)
            × (result.offered ≤ result.learned + places_of self) }

        // What the word rule says of the two views.
        ensures agreed { Agreed (places_of self) (owner_of owner) (peer_of peer) }
        ensures told { Told (owner_of owner) (peer_of peer) }
    {
        let Words { table, places: _ } = self;
        let OwnerSeat {
            mut seat,
            offered,
            learned,
            stamps: _,
        } = owner;
        let PeerSeat {
            seat: other,
            decided,
            shown: _,
        } = peer;
        table.shared.join_seat::<Sides>(&mut seat, other);
        table.close_with(seat).free();
        Closed {
            offered,
            decided,
            learned,
        }
    }
}
