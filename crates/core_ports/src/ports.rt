//! The ports of a core.

ghost use Rattle.std.specs.Prelude.{◌≡◌, true, ◌||◌, IfNone};
ghost use Rattle.ac_links.specs.Payloads.{is_payload};
ghost use Rattle.ac_links.specs.Views.{may_withdraw};
ghost use Rattle.core_channels.specs.Laws.{told_by_offering, told_by_withdrawing};
ghost use Rattle.core_ports.specs.Ends.{is_owner, is_held, offer_at, AreUpTo};
ghost use Rattle.core_ports.specs.Tells.{told_by_arrival, Tells};
ghost use Rattle.core_ports.specs.PortsTold.{PortsTold};
ghost use Rattle.core_ports.specs.Answers.{IsOfferAnswer, IsWithdrawalAnswer, IsPollAnswer};
ghost use Rattle.core_ports.specs.Answers.{is_full_offering, is_full_withdrawal, is_full_arrival};
ghost use Rattle.core_ports.specs.Counts.{with_one_more};

use ac_base::{Clock, Payload};
use core_channels::{Arrived, Offering, Withdrawing};

/// What a core has of its links: it offers and withdraws where it sends, and polls each.
///
/// A call adds to the core's end of its link the entry that its answer tells of, and nothing else;
/// the clock goes on to the stamp of that entry, and where there is none it stays.
pub trait Ports {
    // its links, with their ends and what is at hand on them, and what it was asked
    ghost told: { Self → PortsTold };

    // the second ports are the first ones after some calls
    ghost stays: { Self → Self → Type 0 };

    /// Offers the payload on the link.
    ///
    /// Condition: the core sends on the link, which carries such a payload, and the clock's last
    /// stamp is at least every stamp at the core's ends.
    fn offer(&mut self, link: u32, payload: Payload, clock: &mut Clock) -> Offering<Payload>
        requires link { is_owner ((told self.old).ends link) ≡ true }
        requires payload { is_payload ((told self.old).terms link).requests payload ≡ true }
        requires clock { AreUpTo clock.old (told self.old).ends }
        ensures answer { IsOfferAnswer ((told self.old).terms link) ((told self.old).ends link) ((told self.old).at_hand link)
            clock.old payload result }
        ensures tells { Tells (told self.old).terms (told self.old).ends clock.old
            (told_by_offering link payload result) (told self.new).ends clock.new }
        ensures hand { IfNone (told_by_offering link payload result) ((told self.new).at_hand ≡ (told self.old).at_hand) }
        ensures terms { (told self.new).terms ≡ (told self.old).terms }
        ensures polls { (told self.new).polls ≡ (told self.old).polls }
        ensures tries { (told self.new).tries ≡ with_one_more (told self.old).tries link }
        ensures full { (told self.new).full ≡ ((told self.old).full || is_full_offering result) }
        ensures stays { stays self.old self.new };

    /// Withdraws the offer of this number, unless it was decided before.
    ///
    /// Condition: the core has made the offer on the link, has not withdrawn it and knows of no
    /// decision of it, and the clock's last stamp is at least every stamp at the core's ends.
    fn withdraw(&mut self, link: u32, number: u64, clock: &mut Clock) -> Withdrawing
        requires open { may_withdraw (offer_at ((told self.old).ends link) number) ≡ true }
        requires clock { AreUpTo clock.old (told self.old).ends }
        ensures answer { IsWithdrawalAnswer ((told self.new).heard link) clock.old result }
        ensures tells { Tells (told self.old).terms (told self.old).ends clock.old
            (told_by_withdrawing link number result) (told self.new).ends clock.new }
        ensures hand { IfNone (told_by_withdrawing link number result) ((told self.new).at_hand ≡ (told self.old).at_hand) }
        ensures terms { (told self.new).terms ≡ (told self.old).terms }
        ensures polls { (told self.new).polls ≡ (told self.old).polls }
        ensures tries { (told self.new).tries ≡ (told self.old).tries }
        ensures full { (told self.new).full ≡ ((told self.old).full || is_full_withdrawal result) }
        ensures stays { stays self.old self.new };

    /// Looks for what has come on the link: a decision of the first offer that is not known, and
    /// where it is wanted the next message, or the reply to the first request that is neither withdrawn
    /// nor replied, once that is known to be taken.
    ///
    /// Condition: the link is one of the core's, and the clock's last stamp is at least every stamp at
    /// the core's ends.
    fn poll(&mut self, link: u32, wants: bool, clock: &mut Clock) -> Arrived
        requires link { is_held ((told self.old).ends link) ≡ true }
        requires clock { AreUpTo clock.old (told self.old).ends }
        ensures answer { IsPollAnswer ((told self.old).terms link) ((told self.old).ends link) ((told self.old).at_hand link) wants
            ((told self.new).heard link) clock.old result }
        ensures tells { Tells (told self.old).terms (told self.old).ends clock.old
            (told_by_arrival link result) (told self.new).ends clock.new }
        ensures hand { IfNone (told_by_arrival link result) ((told self.new).at_hand ≡ (told self.old).at_hand) }
        ensures terms { (told self.new).terms ≡ (told self.old).terms }
        ensures polls { (told self.new).polls ≡ with_one_more (told self.old).polls link }
        ensures tries { (told self.new).tries ≡ (told self.old).tries }
        ensures full { (told self.new).full ≡ ((told self.old).full || is_full_arrival result) }
        ensures stays { stays self.old self.new };

    ghost stays_self: { (p : Self) → stays p p };

    ghost stays_then: { (p q r : Self) → stays p q → stays q r → stays p r };
}
