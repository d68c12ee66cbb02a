//! The parties of a merge, each with ends of its own.

ghost use Rattle.std.specs.Prelude.{◌≡◌, ◌≤◌, ◌<◌, ◌^◌, slice_get};
ghost use Rattle.channel_ends.specs.Settled.{AreEnds};
ghost use Rattle.merge_run.specs.declared.party.MergeParty.TheVariants as v;
ghost use Rattle.merge_run.specs.inner.Parties.{clock_of, IsLater, IsGoing, AreEndsAt, HaveMet};

use crate::consumer::Consumer;
use crate::producer::Producer;
use ac_base::NoMemory;
use ac_choice::Relay;
use ac_outside::Gate;
use settled_rounds::Party;

// How often in a row a party tries in vain in its part of a round.
const TRIES: u64 = 10_000;

/// A party of a merge.
#[derive(Drop)]
pub(crate) enum MergeParty<'a> {
    Produces(Producer<'a>),
    Relays(Relay<'a>),
    Consumes(Consumer<'a>),
}

impl<'a> MergeParty<'a> {
    // The stamp of its last entry.
    fn last(&self) -> u64
        ensures same { result ≡ clock_of self.now }
        ensures bound { result < 2 ^ 60 }
    {
        match self {
            MergeParty::Produces(producer) => producer.clock.last(),
            MergeParty::Relays(relay) => relay.last(),
            MergeParty::Consumes(consumer) => consumer.clock.last(),
        }
    }

    // Does what it does in one call.
    fn step(&mut self) -> Result<(), NoMemory>
        requires { IsGoing self.old }
        ensures later { IsLater self.old self.new }
        ensures rises { clock_of self.old ≤ clock_of self.new }
    {
        match self {
            MergeParty::Produces(producer) => producer.step(),
            MergeParty::Relays(relay) => {
                let _ = relay.step();
            }
            MergeParty::Consumes(consumer) => consumer.step()?,
        }
        Ok(())
    }

    // Goes on until it has tried in vain for long.
    fn keep_on<G: Gate>(&mut self, place: u32, gate: &G) -> Result<(), NoMemory>
        requires { IsGoing self.old }
        ensures later { IsLater self.old self.new }
        ensures rises { clock_of self.old ≤ clock_of self.new }
    {
        gate.pass(place, self.last());
        let mut in_vain = 0;
        while in_vain < TRIES {
            let before = self.last();
            self.step()?;
            if before < self.last() {
                in_vain = 0;
                gate.pass(place, self.last());
            } else {
                in_vain += 1;
            }
        }
        Ok(())
    }
}

// Settles the link of a producer.
fn settle_sender(producer: &mut Producer<'_>, relay: &mut Relay<'_>, link: u32)
    requires { AreEndsAt producer.old.end (slice_get relay.old.ins link) }
    ensures { HaveMet link (v.Produces producer.old) (v.Relays relay.old) (v.Produces producer.new) (v.Relays relay.new) }
{
    relay.settle_end(link, &mut producer.end);
    // What holds of a relay at any time is asked for, for the proof.
    let _last = relay.last();
}

// Settles the link of the consumer, which has this number.
fn settle_receiver(relay: &mut Relay<'_>, consumer: &mut Consumer<'_>, link: u32)
    requires { AreEnds relay.old.out consumer.old.end }
    ensures { HaveMet link (v.Relays relay.old) (v.Consumes consumer.old) (v.Relays relay.new) (v.Consumes consumer.new) }
{
    let _link = link;
    relay.settle_out(&mut consumer.end);
    // What holds of a relay at any time is asked for, for the proof.
    let _last = relay.last();
}

impl<'a> Party for MergeParty<'a> {
    ghost use Rattle.merge_run.specs.inner.Parties.{clock_of, IsLater, IsGoing, HaveEnds, AreSettledAt, KeepsLists};
    ghost use Rattle.merge_run.specs.inner.Keeping.{later_self, later_then, going_stays, keeps_self, ends_stay, settled_keeps};

    ghost clock = { λ p. clock_of p };

    ghost later = { λ p q. IsLater p q };

    ghost ready = { λ p. IsGoing p };

    ghost pair = { λ link p q. HaveEnds link p q };

    ghost settled = { λ link p q. AreSettledAt link p q };

    ghost known = { λ link p q. Unit {0} };

    ghost still = { λ p q. Unit {0} };

    ghost apart = { λ link p q. KeepsLists p q };

    ghost stopped = { λ p. Unit {0} };

    ghost worked = { λ p q. Unit {0} };

    fn advance(&mut self) -> Result<bool, NoMemory> {
        let before = self.last();
        let went = self.step();
        let after = self.last();
        went?;
        Ok(before < after)
    }

    fn work<G: Gate>(&mut self, place: u32, gate: &G) -> Result<bool, NoMemory> {
        let before = self.last();
        let went = self.keep_on(place, gate);
        let after = self.last();
        went?;
        Ok(before < after)
    }

    fn is_ready(&self) -> bool {
        match self {
            MergeParty::Produces(producer) => producer.is_ready(),
            _ => false,
        }
    }

    fn has_news(&self, other: &Self, link: u32) -> (bool, bool) {
        match (self, other) {
            (MergeParty::Produces(producer), MergeParty::Relays(relay)) => {
                if link >= relay.ends() {
                    return (false, false);
                }
                let decided = relay.decided(link);
                (
                    producer.end.known() < decided,
                    decided < producer.end.offered(),
                )
            }
            (MergeParty::Relays(relay), MergeParty::Consumes(consumer)) => {
                let decided = consumer.end.decided();
                (relay.known() < decided, decided < relay.offered())
            }
            _ => (false, false),
        }
    }

    fn progress(&self) -> u64 {
        self.last()
    }

    fn settle_with(&mut self, other: &mut Self, link: u32) -> Result<(), NoMemory> {
        match (self, other) {
            (MergeParty::Produces(producer), MergeParty::Relays(relay)) => {
                settle_sender(producer, relay, link);
            }
            (MergeParty::Relays(relay), MergeParty::Consumes(consumer)) => {
                settle_receiver(relay, consumer, link);
            }
            _ => unreachable!(),
        }
        Ok(())
    }

    ghost later_self = { λ p. later_self p };

    ghost later_then = { λ p q r a b. later_then p q r a b };

    ghost ready_stays = { λ p q a b. going_stays p q a b };

    ghost still_self = { λ p. tt };

    ghost apart_self = { λ link p. keeps_self p };

    ghost pair_stays = { λ link p q r s pair a b. ends_stay link p q r s pair a b };

    ghost settled_apart = { λ link other p q r s settled differ a b. settled_keeps link p q r s settled a b };

    ghost settled_knows = { λ link p q settled. tt };

    ghost known_still = { λ link p q r s known a b. tt };

    ghost stopped_still = { λ link p q stopped apart still. tt };
}
