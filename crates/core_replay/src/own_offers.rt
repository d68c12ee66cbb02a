//! What a core has offered, and which of it was withdrawn and keeps its room.

ghost use Rattle.std.specs.Prelude.{◌≡◌, ℕ, ◌<◌, ◌+◌, ◌-◌, ◌^◌, ◌∷◌, ◌++◌, [], length, not, IfOk, OnOk, OnErr, slice_index};
ghost use Rattle.std.specs.List.{list_any, filter};
ghost use Rattle.core_replay.specs.Offering.{is_of, counted};

use ac_base::NoMemory;
use std::alloc::Global;
use std::marker::Model;

/// The number of a link, and that of an offer on it.
#[derive(Clone, Copy, Debug)]
pub struct OfferName {
    pub link: u32,
    pub number: u64,
}

/// By link how many offers were made on it, and the offers that were withdrawn and keep their room.
#[derive(Debug, Drop)]
pub struct OwnOffers {
    counts: Vec<u64>,
    kept: Vec<OfferName>,
}

impl Model for OwnOffers {
    ghost use Rattle.core_replay.specs.Offering.{Offers};

    ghost Value = { Offers };

    ghost view = { λ o. record { counts = o.counts.items; kept = o.kept.items } };
}

impl OwnOffers {
    /// Nothing was offered.
    pub fn new(alloc: Global) -> OwnOffers
        ensures counts { result.counts ≡ [] }
        ensures kept { result.kept ≡ [] }
    {
        OwnOffers {
            counts: Vec::new(alloc),
            kept: Vec::new(alloc),
        }
    }

    /// How many offers were made on a link.
    pub fn count(&self, link: u32) -> u64
        ensures { result ≡ slice_index self.now.counts link }
    {
        match self.counts.get(link as usize) {
            None => 0,
            Some(count) => *count,
        }
    }

    /// Whether that offer was withdrawn and keeps its room.
    pub fn keeps_room(&self, link: u32, number: u64) -> bool
        ensures { result ≡ list_any (is_of link number) self.now.kept }
    {
        self.kept
            .iter()
            .any(|offer| offer.link == link && offer.number == number)
    }

    // The counts reach to this link.
    fn reach(&mut self, link: u32) -> Result<(), NoMemory>
        ensures counts { (l : ℕ) → slice_index self.new.counts l ≡ slice_index self.old.counts l }
        ensures kept { self.new.kept ≡ self.old.kept }
        ensures within { OnOk result (link < length self.new.counts) }
    {
        let link = link as usize;
        let missing = (link + 1).saturating_sub(self.counts.len());
        for _ in 0..missing {
            self.counts.push(0)?;
        }
        Ok(())
    }

    /// An offer was made on a link.
    ///
    /// Condition: fewer than 2^64 - 1 were made there before.
    pub fn offered(&mut self, link: u32) -> Result<(), NoMemory>
        requires { slice_index self.old.counts link < 2 ^ 64 - 1 }
        ensures counts { (l : ℕ) → OnOk result (slice_index self.new.counts l ≡ counted link l (slice_index self.old.counts l)) }
        ensures kept { self.new.kept ≡ self.old.kept }
        ensures same { (l : ℕ) → OnErr result (slice_index self.new.counts l ≡ slice_index self.old.counts l) }
    {
        self.reach(link)?;
        self.counts[link as usize] += 1;
        Ok(())
    }

    /// An offer was withdrawn, and keeps its room.
    pub fn withdrawn(&mut self, link: u32, number: u64) -> Result<(), NoMemory>
        ensures counts { self.new.counts ≡ self.old.counts }
        ensures kept { OnOk result (self.new.kept ≡ self.old.kept ++ record { link = link; number = number } ∷ []) }
        ensures same { OnErr result (self.new.kept ≡ self.old.kept) }
    {
        self.kept.push(OfferName { link, number })?;
        Ok(())
    }

    /// The room of an offer was given back.
    pub fn roomed(&mut self, link: u32, number: u64)
        ensures counts { self.new.counts ≡ self.old.counts }
        ensures kept { self.new.kept ≡ filter (λ o. not (is_of link number o)) self.old.kept }
    {
        self.kept
            .retain(|offer| !(offer.link == link && offer.number == number));
    }
}
