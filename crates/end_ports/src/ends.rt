//! The ends of one core, with a place for what its polls bring.

ghost use Rattle.std.specs.Prelude.{◌≡◌, Bool, true, false};
ghost use Rattle.core_ports.specs.Ends.{is_held};
ghost use Rattle.end_ports.specs.OnLinks.{end_on, on_link};
ghost use Rattle.end_ports.specs.inner.Arrivals.{arrival_of};
ghost use Rattle.end_ports.specs.inner.Calls.{PollsOn};
ghost use Rattle.end_ports.specs.inner.Places.{OnlyOn, held_by};

use crate::ask_at::AskAt;
use crate::brought::{Brought, Polled};
use crate::recvs::Recvs;
use crate::sends::Sends;
use ac_base::Clock;

/// The ends of one core: of the channels on which it sends and receives, and of the link of its requests.
#[derive(Drop)]
pub(crate) struct Ends<'a> {
    pub(crate) sends: Sends<'a>,
    pub(crate) recvs: Recvs<'a>,
    pub(crate) ask: AskAt<'a>,
    /// What the last polls have left.
    pub(crate) brought: Brought,
}

impl<'a> Ends<'a> {
    /// A poll of the end of a link. It is not inlined, so that the call that hands on what has come is
    /// small and becomes a part of its caller, which then makes no place for a message that has not come.
    #[inline(never)]
    pub(crate) fn look(&mut self, link: u32, wants: bool, clock: &mut Clock) -> Polled
        requires { is_held (on_link (held_by self.old false) link).end ≡ true }
        ensures call { PollsOn (end_on (held_by self.old false) link) link clock.old wants (arrival_of result self.new.brought)
            (end_on (held_by self.new false) link) clock.new }
        ensures only { (full : Bool) → OnlyOn (held_by self.old full) link (held_by self.new full) }
    {
        if self.ask.link() == link {
            return self.ask.poll(wants, clock, &mut self.brought);
        }
        if let Some(at) = self.sends.place(link) {
            return self.sends.poll(at, wants, clock);
        }
        match self.recvs.place(link) {
            Some(at) => self.recvs.poll(at, wants, clock, &mut self.brought),
            None => unreachable!(),
        }
    }
}
