//! A party: what it may do with its ends, and when it has stopped.

ghost use Rattle.std.specs.Prelude.{◌≡◌, ◌≤◌, ◌<◌, ◌^◌, ℕ, false, nat_lt, IfOk, OnOk};

use ac_base::NoMemory;
use ac_outside::Gate;

/// A link, by the places of its owner and of its peer among the parties.
#[derive(Clone, Copy, Debug, PartialEq, Eq)]
pub struct Way {
    pub from: u32,
    pub to: u32,
}

/// A party that has its ends of the links for itself.
///
/// What it has done is compared with what the party at the other end has done only where both ends are
/// settled; until then each knows of the other what its own ends have told.
pub trait Party {
    /// The stamp of its last entry.
    ghost clock: { Self → ℕ };

    /// The second is the first after some calls.
    ghost later: { Self → Self → Type 0 };

    /// It may go on.
    ghost ready: { Self → Type 0 };

    /// The first sends on the link of this number, the second receives, and their ends are of one pair.
    ghost pair: { ℕ → Self → Self → Type 0 };

    /// The ends of this link are settled: they agree, and each party has at hand all that is there.
    ghost settled: { ℕ → Self → Self → Type 0 };

    /// Each party has at hand on this link all that is there.
    ghost known: { ℕ → Self → Self → Type 0 };

    /// The lists of its ends and what is at hand for it are as before.
    ghost still: { Self → Self → Type 0 };

    /// All is as before but what is at hand on this link.
    ghost apart: { ℕ → Self → Self → Type 0 };

    /// It has ended, or it waits and nothing that is at hand is for it, or no stamp is left to it.
    ghost stopped: { Self → Type 0 };

    /// The second is the first after its part of a round.
    ghost worked: { Self → Self → Type 0 };

    /// Goes on until it can go on no further by what its ends tell, and says whether it made an entry.
    ///
    /// Condition: it may go on.
    fn advance(&mut self) -> Result<bool, NoMemory>
        requires { ready self.old }
        ensures later { later self.old self.new }
        ensures rises { clock self.old ≤ clock self.new }
        ensures bound { clock self.new < 2 ^ 60 }
        ensures moved { IfOk result (λ it. it ≡ nat_lt (clock self.old) (clock self.new)) }
        ensures stops { OnOk result (stopped self.new) }
        ensures rests { IfOk result (λ it. it ≡ false → still self.old self.new) };

    /// Its part of a round, in which the others go on too: goes on again and again, until it has ended, or no
    /// stamp is left to it, or it has tried in vain as often in a row as a round asks for; and says whether it
    /// made an entry. It passes the gate with its place and the number of its entries as it begins, and after
    /// each call that made one.
    ///
    /// Condition: it may go on.
    fn work<G: Gate>(&mut self, place: u32, gate: &G) -> Result<bool, NoMemory>
        requires { ready self.old }
        ensures later { later self.old self.new }
        ensures rises { clock self.old ≤ clock self.new }
        ensures bound { clock self.new < 2 ^ 60 }
        ensures moved { IfOk result (λ it. it ≡ nat_lt (clock self.old) (clock self.new)) }
        ensures worked { OnOk result (worked self.old self.new) };

    /// Whether it can go on by itself. No clause stands on this, nor on `has_news` and `progress`: by them a
    /// run chooses who goes on next.
    fn is_ready(&self) -> bool;

    /// Whether this party, which sends on the link, and the other one have something to learn or to take
    /// there.
    fn has_news(&self, other: &Self, link: u32) -> (bool, bool);

    /// A number that rises with what it does, by about one in the time of an instruction.
    fn progress(&self) -> u64;

    /// Lets its end of a link on which it sends, and the other party's, know all that the other has done.
    /// It makes no entry, and where each already has at hand all that is there, all stays as it was, at want of
    /// memory too.
    fn settle_with(&mut self, other: &mut Self, link: u32) -> Result<(), NoMemory>
        requires { pair link self.old other.old }
        ensures owner { later self.old self.new × (clock self.new ≡ clock self.old) × apart link self.old self.new }
        ensures peer { later other.old other.new × (clock other.new ≡ clock other.old) × apart link other.old other.new }
        ensures settled { OnOk result (settled link self.new other.new) }
        ensures again { known link self.old other.old → still self.old self.new × still other.old other.new };

    ghost later_self: { (p : Self) → later p p };

    ghost later_then: { (p q r : Self) → later p q → later q r → later p r };

    ghost ready_stays: { (p q : Self) → ready p → later p q → ready q };

    ghost still_self: { (p : Self) → still p p };

    ghost apart_self: { (link : ℕ) (p : Self) → apart link p p };

    ghost pair_stays: { (link : ℕ) (p q r s : Self) → pair link p q → later p r → later q s → pair link r s };

    /// The settling of another link leaves those of this one settled.
    ghost settled_apart: { (link other : ℕ) (p q r s : Self) → settled link p q → (link ≡ other → ⊥) → apart other p r → apart other q s
        → settled link r s };

    ghost settled_knows: { (link : ℕ) (p q : Self) → settled link p q → known link p q };

    ghost known_still: { (link : ℕ) (p q r s : Self) → known link p q → still p r → still q s → known link r s };

    ghost stopped_still: { (link : ℕ) (p q : Self) → stopped p → apart link p q → still p q → stopped q };
}
