//! The channels are dealt.

ghost use Rattle.std.specs.Prelude.{◌≡◌, ◌<◌, ◌≤◌, ◌^◌, All, length, OnOk};
ghost use Rattle.run_ends.specs.Dealt.{IsBetween};
ghost use Rattle.run_ends.specs.Unused.{AreUnusedAt};
ghost use Rattle.run_ends.specs.inner.Hands.{asks_of};
ghost use Rattle.run_ends.specs.inner.Dealing.{AreDealtBelow, HaveNone};

use crate::hands::Hands;
use crate::making::new_channel;
use crate::words::Seats;
use ac_base::NoMemory;
use completion_word::Words;
use stack_code::ChannelEnds;
use std::alloc::Global;

/// Makes the two ends of each channel, and gives them to its two cores.
pub(crate) fn deal_channels<'a>(
    alloc: Global,
    ends: &[ChannelEnds],
    capacities: &[u32],
    words: &'a [Words],
    seats: Vec<Seats>,
    hands: &mut Hands<'a>,
) -> Result<(), NoMemory>
    requires few { length ends.now < 2 ^ 32 }
    requires seats { length seats.items ≡ length ends.now }
    requires links { (length ends.now ≤ length capacities.now) × (length ends.now ≤ length words.now) }
    requires unused { AreUnusedAt capacities.now words.now seats.items }
    requires cores { All (IsBetween (length hands.old)) ends.now }
    requires none { HaveNone hands.old }
    ensures dealt { OnOk result (AreDealtBelow ends.now capacities.now (length ends.now) hands.new) }
    ensures asks { OnOk result (asks_of hands.new ≡ asks_of hands.old) }
{
    let mut link = 0;
    for pair in seats {
        let at = link as usize;
        let (send, recv) = new_channel(alloc, &words[at], pair, capacities[at], link)?;
        hands.give(ends[at], send, recv)?;
        link += 1;
    }
    Ok(())
}
