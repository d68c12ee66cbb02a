//! The rule over the words of a link, and the kinds of step that its seats make.
ghost use Rattle.completion_word.specs.Link.{both_views, new_owner, new_peer, no_view};
ghost use Rattle.completion_word.specs.Rule.{WordRule};
ghost use Rattle.completion_word.specs.Steps.{Posts, Withdraws, Learns, Looks, Takes, Passes, HearsOwner, HearsPeer};
ghost use Rattle.completion_word.specs.Steps.{Checks, notes_of, with_notes};
ghost use Rattle.completion_word.specs.inner.Parts.{owner_part, peer_part, both_parts, same_view};

use crate::views::View;
use atomic_table::{Join, Play, Split, TableRule};

// The rule of a link's words, by the number of its places.
pub(crate) struct LinkRule;

impl TableRule<u64, View, usize> for LinkRule {
    ghost holds = { WordRule };

    ghost first = { λ _. both_views new_owner new_peer };
}

// The owner posts an offer.
pub(crate) struct Post;

impl Play<u64, View> for Post {
    ghost then = { Posts };
}

// The owner tries to withdraw an offer.
pub(crate) struct Withdraw;

impl Play<u64, View> for Withdraw {
    ghost then = { Withdraws };
}

// The owner loads the first offer that is not learned.
pub(crate) struct Learn;

impl Play<u64, View> for Learn {
    ghost then = { Learns };
}

// The peer loads the first offer that is not decided.
pub(crate) struct LookAt;

impl Play<u64, View> for LookAt {
    ghost then = { Looks };
}

// The peer tries to take an offer.
pub(crate) struct Take;

impl Play<u64, View> for Take {
    ghost then = { Takes };
}

// The peer passes a withdrawn offer by.
pub(crate) struct Pass;

impl Play<u64, View> for Pass {
    ghost then = { Passes };
}

// The two sides part at the start, and meet in one seat at the end.
pub(crate) struct Sides;

impl Split<View> for Sides {
    ghost left = { owner_part };

    ghost right = { peer_part };
}

impl Join<View> for Sides {
    ghost both = { both_parts };

    ghost spent = { no_view };
}

// A note of a seat is copied off it, and taken in by the other seat.
pub(crate) struct Note;

impl Split<View> for Note {
    ghost left = { same_view };

    ghost right = { notes_of };
}

impl Join<View> for Note {
    ghost both = { with_notes };

    ghost spent = { no_view };
}

// The peer is told what a note of the owner says.
pub(crate) struct HearOwner;

impl Play<u64, View> for HearOwner {
    ghost then = { HearsOwner };
}

// The owner is told what a note of the peer says.
pub(crate) struct HearPeer;

impl Play<u64, View> for HearPeer {
    ghost then = { HearsPeer };
}

// The owner holds what it was told against its own view.
pub(crate) struct Check;

impl Play<u64, View> for Check {
    ghost then = { Checks };
}
