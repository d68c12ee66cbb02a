//! What the seat of an owner is told as it learns, and which of its offers are known then.

ghost use Rattle.std.specs.Prelude.{◌≡◌, ℕ, ◌+◌, ◌<◌, ◌≤◌, length, is_some, true, false};
ghost use Rattle.completion_word.specs.Seats.{owner_of, IsOwnerOf};
ghost use Rattle.completion_word.specs.Link.{offer_at};
ghost use Rattle.channel_ends.specs.inner.Noted.{heard_at, is_known, mark_at, MarkFits};
ghost use Rattle.channel_ends.specs.inner.Catching.{CatchesUp, HearsOne};
ghost use Rattle.channel_ends.specs.inner.Knowing.{IsKnownFrom};

use crate::marks::{Heard, Mark};
use completion_word::{Learnt, OwnerSeat, Words};

// Learns the first offers, so many of which are known, on the words. That makes no entry.
pub(crate) fn catch_up(words: &Words, owner: &mut OwnerSeat, lead: u64)
    requires seat { IsOwnerOf owner.old words.now }
    requires lead { lead ≤ length (owner_of owner.old).offers }
    requires known { (k : ℕ) → k < lead → is_some (heard_at (owner_of owner.old) k) ≡ true }
    ensures seat { IsOwnerOf owner.new words.now }
    ensures view { CatchesUp lead (owner_of owner.old) (owner_of owner.new) }
{
    while owner.learned() < lead {
        let _ = words.learn(owner);
    }
}

// Hears of the first offer that is not known: from its mark, or by a load of its word.
pub(crate) fn hear(words: &Words, owner: &mut OwnerSeat, lead: u64, mark: Mark) -> Heard
    requires seat { IsOwnerOf owner.old words.now }
    requires lead { lead < length (owner_of owner.old).offers }
    requires learned { length (owner_of owner.old).learned ≤ lead + 1 }
    requires known { (k : ℕ) → k < lead → is_some (heard_at (owner_of owner.old) k) ≡ true }
    requires marked { MarkFits mark (heard_at (owner_of owner.old) lead) (is_some (offer_at (owner_of owner.old).offers lead).withdrawn) }
    requires unknown { is_known mark ≡ false }
    ensures seat { IsOwnerOf owner.new words.now }
    ensures view { HearsOne lead (owner_of owner.old) result (owner_of owner.new) }
{
    catch_up(words, owner, lead);
    match mark {
        Mark::Seen { withdrawn, stamp } => Heard::Decided { withdrawn, stamp },
        _ => match words.learn(owner) {
            Learnt::Undecided => Heard::Nothing,
            Learnt::Taken { stamp } => Heard::Decided {
                withdrawn: false,
                stamp,
            },
            Learnt::Passed { stamp } => Heard::Decided {
                withdrawn: true,
                stamp,
            },
        },
    }
}

// The first number from this one on whose mark does not say that it is known.
pub(crate) fn first_unknown(marks: &[Mark; 64], from: u64, offered: u64) -> u64
    requires { from ≤ offered }
    ensures { IsKnownFrom marks.now from offered result }
{
    let mut n = from;
    while n < offered && marks[(n % 64) as usize].is_known() {
        n += 1;
    }
    n
}
