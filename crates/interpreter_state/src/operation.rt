//! An operation that has not ended.

ghost use Rattle.std.specs.Prelude.{◌≡◌};
ghost use Rattle.cancel_scope.specs.Outstanding.{started, offered_as, as_begun, is_outgoing, is_request, has_begun, carries, waiting_as};
ghost use Rattle.core_state.specs.Arrivals.{place_for};
ghost use Rattle.core_state.specs.Requests.{value_of, with_answer};
ghost use Rattle.interpreter_state.specs.Operations.{asked_of};
ghost use Rattle.interpreter_state.specs.inner.Sought.{is_sought};

use crate::datum::Span;
use crate::memory::Memory;
use ac_base::{Answer, Bytes, List, Message, Payload, Waiting};
use cancel_scope::Progress;
use std::marker::Model;
use work_item::{Item, Place};

/// What is asked of a link: to send a message of these ints, to receive one into these elements, to read from a place of a file on
/// into these elements, or to write these bytes from there on.
#[derive(Drop)]
pub enum Asked {
    Send(List<i64>),
    Recv(Span),
    Read { file: u32, from: u32, into: Span },
    Write { file: u32, from: u32, bytes: Bytes },
}

/// Which operations are looked for: those that are to be offered on a link, that stand on it under a number, that have begun there
/// under a number, or that wait for a message from it.
#[derive(Clone, Copy)]
pub enum Sought {
    ToOffer(u32),
    Offered(u32, u64),
    Begun(u32, u64),
    ToReceive(u32),
}

/// The value of a request that the disk failed.
const FAULT: i64 = -2;

const NO_PLACE: Place = Place {
    home: None,
    start: 0,
    len: 0,
};

/// An operation, the number of its link, and the thread that waits for its end.
#[derive(Drop)]
pub struct Operation {
    link: u32,
    asked: Asked,
    item: Item,
    progress: Progress,
}

impl Model for Operation {
    ghost use Rattle.cancel_scope.specs.declared.operation.Operation.{Operation};
    ghost use Rattle.interpreter_state.specs.Operations.{asked_of};

    ghost Value = { Operation };

    ghost view = { λ o. record { link = o.link; asked = asked_of o.asked; item = o.item; progress = o.progress } };
}

impl Operation {
    /// One that has just started.
    pub(crate) fn start(link: u32, asked: Asked, item: Item) -> Operation
        ensures { result ≡ started link (asked_of asked) item }
    {
        Operation {
            link,
            asked,
            item,
            progress: Progress::Waiting,
        }
    }

    // The same, with neither a place nor bytes and with another message, where a write is a read of no byte: no test looks at what they
    // differ in.
    fn bare(&self) -> cancel_scope::Operation
        ensures link { result.link ≡ self.now.link }
        ensures outgoing { is_outgoing result.asked ≡ is_outgoing self.now.asked }
        ensures request { is_request result.asked ≡ is_request self.now.asked }
        ensures progress { result.progress ≡ self.now.progress }
    {
        let asked = match &self.asked {
            Asked::Send(_) => cancel_scope::Asked::Send(Message::of(0)),
            Asked::Recv(_) => cancel_scope::Asked::Recv(NO_PLACE),
            Asked::Read { file, from, .. } | Asked::Write { file, from, .. } => {
                cancel_scope::Asked::Read {
                    file: *file,
                    from: *from,
                    into: NO_PLACE,
                }
            }
        };
        cancel_scope::Operation {
            link: self.link,
            asked,
            item: self.item,
            progress: self.progress,
        }
    }

    /// Whether it is one of those that are looked for.
    pub(crate) fn is_sought(&self, sought: Sought) -> bool
        ensures { result ≡ is_sought sought self.now }
    {
        let bare = self.bare();
        match sought {
            Sought::ToOffer(link) => bare.is_to_offer(link),
            Sought::Offered(link, number) => bare.is_offered(link, number),
            Sought::Begun(link, number) => bare.is_begun(link, number),
            Sought::ToReceive(link) => bare.is_to_receive(link),
        }
    }

    /// Whether an offer of it carries this.
    pub(crate) fn carries(&self, payload: &Payload) -> bool
        ensures { result ≡ carries self.now.asked payload.now }
    {
        match (&self.asked, payload) {
            (Asked::Send(ints), Payload::Int(message)) => ints.as_slice() == message.as_slice(),
            (
                Asked::Read { file, from, into },
                Payload::Read {
                    file: other,
                    from: at,
                    len,
                },
            ) => *file == *other && *from == *at && into.len() == *len,
            (
                Asked::Write { file, from, bytes },
                Payload::Write {
                    file: other,
                    from: at,
                    bytes: carried,
                },
            ) => *file == *other && *from == *at && bytes.as_slice() == carried.as_slice(),
            _ => false,
        }
    }

    /// It is offered under a number.
    pub(crate) fn offer(&mut self, number: u64)
        ensures { self.new ≡ offered_as number self.old }
    {
        self.progress = Progress::Offered { number };
    }

    /// Its peer has begun it, where it was offered.
    pub(crate) fn begin(&mut self)
        ensures { self.new ≡ as_begun self.old }
    {
        if let Progress::Offered { number } = self.progress {
            self.progress = Progress::Started { number };
        }
    }

    /// Whether it is a request of a file, which ends by an answer.
    pub(crate) fn is_request(&self) -> bool
        ensures { result ≡ is_request self.now.asked }
    {
        self.bare().is_request()
    }

    /// Whether its peer has begun it.
    pub fn has_begun(&self) -> bool
        ensures { result ≡ has_begun self.now.progress }
    {
        matches!(self.progress, Progress::Started { .. })
    }

    /// The value that an answer gives it; a read puts its bytes into its elements.
    pub(crate) fn take_answer(&self, memory: &mut Memory, answer: &Answer) -> i64
        ensures value { result ≡ value_of self.now.asked answer.now }
        ensures memory { memory.new ≡ with_answer memory.old self.now.asked answer.now }
    {
        match (&self.asked, answer) {
            (Asked::Read { into, .. }, Answer::Bytes(bytes)) => {
                i64::from(memory.write_bytes(*into, bytes.as_slice()))
            }
            (Asked::Write { .. }, Answer::Count(count)) => i64::from(*count),
            _ => FAULT,
        }
    }

    /// The thread that waits for its end.
    pub fn item(&self) -> Item
        ensures { result ≡ self.now.item }
    {
        self.item
    }

    /// Where it puts what it receives.
    pub(crate) fn place(&self) -> Span
        ensures { result ≡ place_for self.now.asked }
    {
        match &self.asked {
            Asked::Recv(place) => *place,
            _ => Span::new(None, 0, 0),
        }
    }

    /// The number of its link.
    pub fn link(&self) -> u32
        ensures { result ≡ self.now.link }
    {
        self.link
    }

    /// How far it has come.
    pub fn progress(&self) -> Progress
        ensures { result ≡ self.now.progress }
    {
        self.progress
    }

    /// What is seen of it.
    pub fn seen(&self) -> Waiting
        ensures { result ≡ waiting_as self.now }
    {
        self.bare().seen()
    }
}
