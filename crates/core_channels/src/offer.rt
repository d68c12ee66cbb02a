//! An offer of a link, as its owner knows it.

ghost use Rattle.std.specs.Prelude.{◌≡◌, ◌||◌, is_some};
ghost use Rattle.ac_links.specs.Views.{owner_offer, known_at, withdrawn_at, replied_with};
ghost use Rattle.ac_links.specs.Noted.{or_zero};

use ac_base::{Answer, Payload};
use std::marker::Model;

/// The answer to a request, with the stamp of the entry by which it was done.
#[derive(Drop)]
pub struct Reply {
    answer: Answer,
    of: u64,
}

impl Model for Reply {
    ghost use Rattle.ac_links.specs.Views.{Response};

    ghost Value = { Response };

    ghost view = { λ it. record { answer = it.answer; of = it.of } };
}

/// An offer, with its stamp, those of its withdrawal and of the decision that the owner knows, and
/// the reply that came.
#[derive(Drop)]
pub struct Offer {
    payload: Payload,
    stamp: u64,
    withdrawn: Option<u64>,
    known: Option<u64>,
    reply: Option<Reply>,
}

impl Model for Offer {
    ghost use Rattle.ac_links.specs.Views.{OwnerOffer};

    ghost Value = { OwnerOffer };

    ghost view = { λ it. record {
      payload = it.payload;
      stamp = it.stamp;
      withdrawn = it.withdrawn;
      known = it.known;
      reply = it.reply;
    } };
}

impl Offer {
    pub fn new(payload: Payload, stamp: u64) -> Offer
        ensures { result ≡ owner_offer payload stamp }
    {
        Offer {
            payload,
            stamp,
            withdrawn: None,
            known: None,
            reply: None,
        }
    }

    pub fn payload(&self) -> &Payload
        ensures { result.now ≡ self.now.payload }
    {
        &self.payload
    }

    pub fn stamp(&self) -> u64
        ensures { result ≡ self.now.stamp }
    {
        self.stamp
    }

    pub fn withdrawn(&self) -> Option<u64>
        ensures { result ≡ self.now.withdrawn }
    {
        self.withdrawn
    }

    /// The stamp of its withdrawal; 0 where it has none.
    pub fn withdrawal(&self) -> u64
        ensures { result ≡ or_zero self.now.withdrawn }
    {
        match self.withdrawn {
            Some(stamp) => stamp,
            None => 0,
        }
    }

    pub fn is_known(&self) -> bool
        ensures { result ≡ is_some self.now.known }
    {
        self.known.is_some()
    }

    /// No reply can come to it any more.
    pub fn is_closed(&self) -> bool
        ensures { result ≡ (is_some self.now.withdrawn || is_some self.now.reply) }
    {
        self.withdrawn.is_some() || self.reply.is_some()
    }

    /// It is withdrawn by an entry of this stamp.
    pub fn withdraw(&mut self, stamp: u64)
        ensures { self.new ≡ withdrawn_at stamp self.old }
    {
        self.withdrawn = Some(stamp);
    }

    /// Its decision, of this stamp, is known.
    pub fn know(&mut self, stamp: u64)
        ensures { self.new ≡ known_at stamp self.old }
    {
        self.known = Some(stamp);
    }

    /// It was done by an entry of this stamp, and this answer came back.
    pub fn reply(&mut self, answer: Answer, of: u64)
        ensures { self.new ≡ replied_with answer of self.old }
    {
        self.reply = Some(Reply { answer, of });
    }
}
