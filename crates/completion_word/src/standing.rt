//! How an offer stands, and the word that says so.
ghost use Rattle.std.specs.Prelude.{◌≡◌, ◌^◌, ◌<◌};

/// What a word says of the offer that stands in it, each with the stamp of the step that said so.
#[derive(Clone, Copy, Debug, PartialEq, Eq)]
pub enum Standing {
    /// No offer has stood in this word yet.
    Unused,
    /// Posted by the owner.
    Offered { stamp: u64 },
    /// Withdrawn by the owner.
    Withdrawn { stamp: u64 },
    /// Taken by the peer.
    Taken { stamp: u64 },
    /// Passed by, by the peer, after the owner had withdrawn it.
    Passed { stamp: u64 },
}

impl Standing {
    ghost use Rattle.completion_word.specs.Link.{code, stamp_in, standing_of};

    // The stamp in a word.
    pub(crate) fn stamp_in(word: u64) -> u64
        ensures { result ≡ stamp_in word }
    {
        word / 8
    }

    // What a word says.
    pub(crate) fn of(word: u64) -> Standing
        ensures { result ≡ standing_of word }
    {
        let stamp = Standing::stamp_in(word);
        match word % 8 {
            1 => Standing::Offered { stamp },
            2 => Standing::Withdrawn { stamp },
            3 => Standing::Taken { stamp },
            4 => Standing::Passed { stamp },
            _ => Standing::Unused,
        }
    }

    // The word that says so: 8 times the stamp, and 1 to 4 for how the offer stands, or 0 where it
    // is unused.
    pub(crate) fn word(self) -> u64
        requires { code self < 2 ^ 64 }
        ensures { result ≡ code self }
    {
        match self {
            Standing::Unused => 0,
            Standing::Offered { stamp } => 8 * stamp + 1,
            Standing::Withdrawn { stamp } => 8 * stamp + 2,
            Standing::Taken { stamp } => 8 * stamp + 3,
            Standing::Passed { stamp } => 8 * stamp + 4,
        }
    }
}
