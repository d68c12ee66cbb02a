//! An operation that has not ended.

ghost use Rattle.std.specs.Prelude.{◌≡◌};
ghost use Rattle.cancel_scope.specs.Outstanding.{started, offered_as, past_offer, as_begun, is_request, is_to_offer, is_offered, is_begun};
ghost use Rattle.cancel_scope.specs.Outstanding.{has_begun, is_to_receive, phase_of, waiting_as, waits_on};

use ac_base::{Bytes, Message, Phase, Waiting};
use work_item::{Item, Place};

/// What is asked of a link. Places in a file are in bytes.
#[derive(Debug, Drop)]
pub enum Asked {
    /// To send a message.
    Send(Message),
    /// To receive a message into the ints at that place.
    Recv(Place),
    /// To read from a place of a file on, at most as many bytes as there are ints to put them into.
    Read { file: u32, from: u32, into: Place },
    /// To write these bytes to a file, from that place on.
    Write { file: u32, from: u32, bytes: Bytes },
}

/// How far an operation has come.
#[derive(Clone, Copy, Debug, PartialEq, Eq)]
pub enum Progress {
    /// Only its own core knows of it.
    Waiting,
    /// It stands on its link under that number, and its peer may take it.
    Offered { number: u64 },
    /// A request that stands there under that number, and that its peer has begun.
    Started { number: u64 },
}

impl Progress {
    // How far a request has come once its peer has begun it.
    fn past_offer(self) -> Progress
        ensures { result ≡ past_offer self }
    {
        match self {
            Progress::Waiting => Progress::Waiting,
            Progress::Offered { number } | Progress::Started { number } => {
                Progress::Started { number }
            }
        }
    }
}

/// An operation, the number of its link, and the thread that waits for its end.
#[derive(Debug, Drop)]
pub struct Operation {
    pub link: u32,
    pub asked: Asked,
    pub item: Item,
    pub progress: Progress,
}

impl Operation {
    /// One that has just started.
    pub fn start(link: u32, asked: Asked, item: Item) -> Operation
        ensures { result ≡ started link asked item }
    {
        Operation {
            link,
            asked,
            item,
            progress: Progress::Waiting,
        }
    }

    /// It is offered under a number.
    pub fn offer(&mut self, number: u64)
        ensures { self.new ≡ offered_as number self.old }
    {
        self.progress = Progress::Offered { number };
    }

    /// Its peer has begun it, where it was offered.
    pub fn begin(&mut self)
        ensures { self.new ≡ as_begun self.old }
    {
        self.progress = self.progress.past_offer();
    }

    /// Whether it is a request of a file, which ends by an answer.
    pub fn is_request(&self) -> bool
        ensures { result ≡ is_request self.now.asked }
    {
        match self.asked {
            Asked::Send(_) | Asked::Recv(_) => false,
            Asked::Read { .. } | Asked::Write { .. } => true,
        }
    }

    /// Whether its peer has begun it.
    pub fn has_begun(&self) -> bool
        ensures { result ≡ has_begun self.now.progress }
    {
        matches!(self.progress, Progress::Started { .. })
    }

    /// Whether it is to be offered on a link.
    pub fn is_to_offer(&self, link: u32) -> bool
        ensures { result ≡ is_to_offer link self.now }
    {
        self.link == link
            && !matches!(self.asked, Asked::Recv(_))
            && matches!(self.progress, Progress::Waiting)
    }

    /// Whether it stands on a link under a number.
    pub fn is_offered(&self, link: u32, number: u64) -> bool
        ensures { result ≡ is_offered link number self.now }
    {
        let under = match self.progress {
            Progress::Offered { number: own } => own == number,
            Progress::Waiting | Progress::Started { .. } => false,
        };
        self.link == link && under
    }

    /// Whether it has begun on a link under a number.
    pub fn is_begun(&self, link: u32, number: u64) -> bool
        ensures { result ≡ is_begun link number self.now }
    {
        let under = match self.progress {
            Progress::Started { number: own } => own == number,
            Progress::Waiting | Progress::Offered { .. } => false,
        };
        self.link == link && under
    }

    /// Whether it waits for a message from a link.
    pub fn is_to_receive(&self, link: u32) -> bool
        ensures { result ≡ is_to_receive link self.now }
    {
        self.link == link && matches!(self.asked, Asked::Recv(_))
    }

    /// Whether it is one on that link of which only its core knows.
    pub fn waits_on(&self, link: u32) -> bool
        ensures { result ≡ waits_on link (waiting_as self.now) }
    {
        self.link == link && matches!(self.progress, Progress::Waiting)
    }

    // How far it has come.
    fn phase(&self) -> Phase
        ensures { result ≡ phase_of self.now.progress }
    {
        match self.progress {
            Progress::Waiting => Phase::Waiting,
            Progress::Offered { .. } => Phase::Offered,
            Progress::Started { .. } => Phase::Started,
        }
    }

    /// What is seen of it.
    pub fn seen(&self) -> Waiting
        ensures { result ≡ waiting_as self.now }
    {
        Waiting {
            link: self.link,
            phase: self.phase(),
        }
    }
}
