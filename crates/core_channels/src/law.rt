//! What the answers of the calls on a link are to the journals of its two parties.

ghost use Rattle.core_channels.specs.Laws.{OfferEnters, LearningEnters, WithdrawalEnters, TakeEnters, DidEnters, PassEnters, ReplyEnters};

/// What an owner is told when it offers, withdraws or learns is an entry that it may make, and its
/// end of the link is then what the call has left.
pub fn owner_may_enter()
    ensures offer { OfferEnters }
    ensures learn { LearningEnters }
    ensures withdraw { WithdrawalEnters }
{}

/// An owner that has noted a reply may enter it, and its end of the link is then what the call has
/// left.
pub fn owner_may_enter_replies()
    ensures { ReplyEnters }
{}

/// A worker that does a request or passes over one may enter it, and its end of the link is then
/// what the call has left.
pub fn worker_may_enter()
    ensures did { DidEnters }
    ensures pass { PassEnters }
{}

/// What a peer is told when it takes or passes is an entry that it may make, and its end of the
/// link is then what the call has left.
pub fn peer_may_enter()
    ensures { TakeEnters }
{}
