//! A pair of ends is made, and settled.

ghost use Rattle.std.specs.Prelude.{◌≡◌, ◌<◌, ◌≤◌, [], length, IfOk};
ghost use Rattle.completion_word.specs.Seats.{owner_of, peer_of, IsOwnerOf, IsPeerOf, places_of};
ghost use Rattle.channel_ends.specs.Settled.{AreEnds, AreSettled, MakeALink};
ghost use Rattle.channel_ends.specs.Pairs.{IsNewSend, IsNewRecv, IsSettledSend, IsSettledRecv};

use crate::receiving::RecvEnd;
use crate::sending::SendEnd;
use crate::side::OwnerSide;
use ac_base::NoMemory;
use completion_word::{OwnerSeat, PeerSeat, Words};
use rtrb::{Protocol, RingBuffer};
use std::alloc::Global;

/// Joins the words of a link with a ring of as many items.
///
/// Conditions: the words have `cap` places, the seats are theirs, and nothing was offered or decided on
/// them yet. `Err` is want of memory for the ring.
pub fn pair<'a, M: Drop, P: Protocol<M>>(
    alloc: Global,
    words: &'a Words,
    owner: OwnerSeat,
    peer: PeerSeat,
    cap: u32,
) -> Result<(SendEnd<'a, M, P>, RecvEnd<'a, M, P>), NoMemory>
    requires places { places_of words.now ≡ cap }
    requires seats { IsOwnerOf owner words.now × IsPeerOf peer words.now }
    requires unused { ((owner_of owner).offers ≡ []) × ((owner_of owner).last ≡ 0) × ((peer_of peer).decisions ≡ []) }
    ensures pair { IfOk result (λ r. AreEnds r.0 r.1) }
    ensures send { IfOk result (λ r. IsNewSend owner cap r.0) }
    ensures recv { IfOk result (λ r. IsNewRecv peer r.1) }
{
    let (producer, consumer) = RingBuffer::with_protocol::<Global, P>(alloc, cap as usize)?;
    Ok((
        SendEnd {
            words,
            side: OwnerSide::new(owner),
            ring: producer,
        },
        RecvEnd {
            words,
            peer,
            ring: consumer,
        },
    ))
}

/// Lets each end know all that the other has done, in a thread that has both. It makes no entry, takes
/// no memory, and the ring stays.
///
/// What came out of the ring and what is in it are then known to be what went in, and the lists of the
/// two ends to be those of one legal link, however the ends were used before.
///
/// Condition: the two ends are of one pair.
pub fn settle<M, P: Protocol<M>>(send: &mut SendEnd<'_, M, P>, recv: &mut RecvEnd<'_, M, P>)
    requires { AreEnds send.old recv.old }
    ensures pair { AreEnds send.new recv.new }
    ensures send { IsSettledSend send.old send.new }
    ensures recv { IsSettledRecv recv.old recv.new }
    ensures settled { AreSettled send.new recv.new }
    ensures link { MakeALink send.new recv.new }
{
    send.ring.slots_beside(&mut recv.ring);
    recv.ring.slots_beside(&mut send.ring);
    send.side.meet(send.words, &mut recv.peer);
}
