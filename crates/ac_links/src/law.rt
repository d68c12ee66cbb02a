//! What the two views of a link mean together, and what keeps them so.

ghost use Rattle.ac_links.specs.Laws.{TwoViewsMakeALink, TwoViewsEndAsALink, OwnerAtRest, PeerAtRest};
ghost use Rattle.ac_links.specs.Laws.{OfferKeeps, DecideKeeps, WithdrawKeeps, LearnKeeps, ReplyKeeps};
ghost use Rattle.ac_links.specs.Laws.{FrontIsTheNext, NoneIsLost, DecideAdds, OfferAddsNone, WithdrawAddsNone, LearnAddsNone};
ghost use Rattle.ac_links.specs.Laws.{OfferKeepsTurn, WithdrawKeepsTurn, LearnKeepsTurn, ReplyKeepsTurn, PartyGoesOn};

/// Where two views of a link agree, the entries by which its sides came to them are, in order of
/// their stamps, entries that the link allows, and each answers what its side noted. After all of
/// them the link is what the views make it.
pub fn two_views_make_a_link()
    ensures fits { TwoViewsMakeALink }
    ensures link { TwoViewsEndAsALink }
{}

/// Where a side of a link rests by the two views, the link that they make has nothing for it.
pub fn sides_at_rest_have_nothing()
    ensures owner { OwnerAtRest }
    ensures peer { PeerAtRest }
{}

/// Each change that a side may make keeps the two views in agreement.
pub fn views_go_on_agreeing()
    ensures offer { OfferKeeps }
    ensures decide { DecideKeeps }
    ensures withdraw { WithdrawKeeps }
    ensures learn { LearnKeeps }
    ensures reply { ReplyKeeps }
{}

/// What comes first over the ring of the replies answers the least request that is neither
/// withdrawn nor replied, and no answer is lost.
pub fn replies_come_in_order()
    ensures next { FrontIsTheNext }
    ensures all { NoneIsLost }
{}

/// A decision adds its answer to the ring, nothing else adds any, and the replies stay in turn.
pub fn ring_goes_on()
    ensures decide { DecideAdds }
    ensures offer { OfferAddsNone }
    ensures withdraw { WithdrawAddsNone }
    ensures learn { LearnAddsNone }
    ensures offer_turn { OfferKeepsTurn }
    ensures withdraw_turn { WithdrawKeepsTurn }
    ensures learn_turn { LearnKeepsTurn }
    ensures reply_turn { ReplyKeepsTurn }
{}

/// A party that makes one entry more goes on agreeing with its journal, at all its ends.
pub fn a_party_goes_on()
    ensures { PartyGoesOn }
{}
