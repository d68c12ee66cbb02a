//! One offer of a link, and how it stands.

ghost use Rattle.std.specs.Prelude.{◌≡◌};
ghost use Rattle.ac_links.specs.AtRest.{is_news, is_unreplied};
ghost use Rattle.ac_links.specs.Link.{is_offered, is_taken, is_decided, is_withdrawn, is_passed};

use ac_base::{Answer, Payload};

/// What has become of an offer.
#[derive(Clone, Copy, Debug)]
pub enum Standing {
    Offered,
    Taken,
    Withdrawn,
    Passed,
}

impl Standing {
    pub fn is_offered(&self) -> bool
        ensures { result ≡ is_offered self.now }
    {
        matches!(self, Standing::Offered)
    }

    pub fn is_taken(&self) -> bool
        ensures { result ≡ is_taken self.now }
    {
        matches!(self, Standing::Taken)
    }

    pub fn is_withdrawn(&self) -> bool
        ensures { result ≡ is_withdrawn self.now }
    {
        matches!(self, Standing::Withdrawn)
    }

    pub fn is_passed(&self) -> bool
        ensures { result ≡ is_passed self.now }
    {
        matches!(self, Standing::Passed)
    }

    pub fn is_decided(&self) -> bool
        ensures { result ≡ is_decided self.now }
    {
        matches!(self, Standing::Taken | Standing::Passed)
    }
}

/// One offer of a link, with the stamp of the entry that gave it its standing.
#[derive(Debug, Drop)]
pub struct LinkOffer {
    pub payload: Payload,
    pub standing: Standing,
    pub stamp: u64,
    pub known: bool,
    /// The answer to a request that was taken.
    pub answer: Option<Answer>,
    /// Whether the owner has had the reply.
    pub replied: bool,
}

impl LinkOffer {
    /// Whether it was decided, and its owner does not know it.
    pub fn is_news(&self) -> bool
        ensures { result ≡ is_news self.now }
    {
        self.standing.is_decided() && !self.known
    }

    /// Whether the request was done, and its owner has not had the reply.
    pub fn is_unreplied(&self) -> bool
        ensures { result ≡ is_unreplied self.now }
    {
        self.answer.is_some() && !self.replied
    }
}
