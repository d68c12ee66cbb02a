//! What the owner's side of a pair notes of one offer.

/// How far the decision of an offer has come to its owner, where the offer is not among the leading
/// known ones.
#[derive(Clone, Copy)]
pub(crate) enum Mark {
    /// Nothing was heard of it.
    Open,
    /// It is known.
    Known,
    /// It was heard with this stamp, after which the clock had none left. The words have moved on,
    /// and would not tell again.
    Seen { withdrawn: bool, stamp: u64 },
}

/// What was heard of the first offer that is not known.
#[derive(Clone, Copy)]
pub(crate) enum Heard {
    Nothing,
    Decided { withdrawn: bool, stamp: u64 },
}

impl Mark {
    ghost use Rattle.std.specs.Prelude.{◌≡◌};
    ghost use Rattle.channel_ends.specs.inner.Noted.{is_known};

    pub(crate) fn is_known(self) -> bool
        ensures { result ≡ is_known self }
    {
        match self {
            Mark::Known => true,
            Mark::Open => false,
            Mark::Seen { .. } => false,
        }
    }
}
