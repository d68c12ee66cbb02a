//! What sends the numbers of one channel.

ghost use Rattle.std.specs.Prelude.{◌≡◌, ◌+◌, ◌*◌, ◌≤◌, pos};
ghost use Rattle.merge_run.specs.inner.Parties.{IsProducing, IsNumbered, IsSameProducer};

use ac_base::Clock;
use channel_ends::SendEnd;
use core_channels::Offering;
use rtrb::AnyItems;

/// Sends the numbers `j * width + tag` in order, for each j below `count`, on a channel of its own.
#[derive(Drop)]
pub(crate) struct Producer<'a> {
    pub(crate) end: SendEnd<'a, i64, AnyItems>,
    pub(crate) tag: u32,
    pub(crate) width: u32,
    pub(crate) count: u32,
    // How many it has offered.
    pub(crate) sent: u32,
    pub(crate) clock: Clock,
}

impl<'a> Producer<'a> {
    // The next number.
    fn next(&self) -> i64
        requires { IsNumbered self.now.sent self.now.count self.now.width self.now.tag }
        ensures { result ≡ pos (self.now.sent * self.now.width + self.now.tag) }
    {
        i64::from(self.sent * self.width + self.tag)
    }

    /// Learns, and offers the next number where one is left.
    pub(crate) fn step(&mut self)
        requires { IsProducing self.old }
        ensures producing { IsProducing self.new }
        ensures same { IsSameProducer self.old self.new }
        ensures rises { self.old.clock ≤ self.new.clock }
    {
        let _ = self.end.learn(&mut self.clock);
        if self.sent == self.count {
            return;
        }
        let next = self.next();
        if let Offering::Offered { .. } = self.end.offer(next, &mut self.clock) {
            self.sent += 1;
        }
    }

    /// Whether it has a number left, and knows of room for it.
    pub(crate) fn is_ready(&self) -> bool {
        self.sent < self.count && self.end.offered().saturating_sub(self.end.known()) < 4
    }
}
