//! How often the two sides of a link have called.

ghost use Rattle.std.specs.Prelude.{◌≡◌};
ghost use Rattle.core_channels.specs.Counts.{counted, no_calls, counts_after};

/// A call of one side of a link.
#[derive(Clone, Copy, Debug, PartialEq, Eq)]
pub enum Call {
    /// The owner looks for a decision.
    OwnerLooks,
    /// The owner tries to offer.
    OwnerTries,
    /// The peer looks for an offer.
    PeerLooks,
}

/// How many calls there were of each kind. A count that has reached its last value stays there.
#[derive(Clone, Copy, Debug, PartialEq, Eq)]
pub struct Counts {
    pub owner_looks: u64,
    pub owner_tries: u64,
    pub peer_looks: u64,
}

fn counted(n: u64) -> u64
    ensures { result ≡ counted n }
{
    if n < u64::MAX { n + 1 } else { n }
}

impl Counts {
    pub fn none() -> Counts
        ensures { result ≡ no_calls }
    {
        Counts {
            owner_looks: 0,
            owner_tries: 0,
            peer_looks: 0,
        }
    }

    /// There was one more such call.
    pub fn count(&mut self, call: Call)
        ensures { self.new ≡ counts_after self.old call }
    {
        match call {
            Call::OwnerLooks => self.owner_looks = counted(self.owner_looks),
            Call::OwnerTries => self.owner_tries = counted(self.owner_tries),
            Call::PeerLooks => self.peer_looks = counted(self.peer_looks),
        }
    }
}
