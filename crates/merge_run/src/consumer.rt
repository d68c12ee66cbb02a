//! What receives the messages of all producers.

ghost use Rattle.std.specs.Prelude.{◌≡◌, ◌≤◌};
ghost use Rattle.channel_ends.specs.Pairs.{IsSameRecv};
ghost use Rattle.merge_run.specs.inner.Parties.{IsConsuming, taken_value};

use ac_base::{Clock, NoMemory};
use ac_choice::Tagged;
use channel_ends::RecvEnd;
use core_channels::Receiving;
use rtrb::AnyItems;

/// Takes each message that comes, and keeps it.
#[derive(Drop)]
pub(crate) struct Consumer<'a> {
    pub(crate) end: RecvEnd<'a, Tagged, AnyItems>,
    pub(crate) received: Vec<Tagged>,
    pub(crate) clock: Clock,
}

// What was taken, if anything was.
fn taken(answer: Receiving<Tagged>) -> Option<Tagged>
    ensures { result ≡ taken_value answer }
{
    match answer {
        Receiving::Took { value, .. } => Some(value),
        _ => None,
    }
}

impl<'a> Consumer<'a> {
    /// Takes one.
    pub(crate) fn step(&mut self) -> Result<(), NoMemory>
        requires { IsConsuming self.old }
        ensures consuming { IsConsuming self.new }
        ensures same { IsSameRecv self.old.end self.new.end }
        ensures rises { self.old.clock ≤ self.new.clock }
    {
        self.received.reserve(1)?;
        if let Some(value) = taken(self.end.take(&mut self.clock)) {
            self.received.push_reserved(value);
        }
        Ok(())
    }
}
