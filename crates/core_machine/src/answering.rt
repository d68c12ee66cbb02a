//! Answers to requests.

use crate::running::Running;
use ac_base::{Answer, Event};
use core_operators::take_answer;

impl Running<'_> {
    ghost use Rattle.std.specs.Prelude.{◌≡◌, ◌<◌, None, false, find, IsSome};
    ghost use Rattle.ac_base.specs.declared.entry.Event.{Event};
    ghost use Rattle.cancel_scope.specs.Outstanding.{is_begun};
    ghost use Rattle.core_machine.specs.State.{IsSound};
    ghost use Rattle.core_machine.specs.inner.Changes.{Enters};

    /// The request that has begun under that number has its answer, and has ended: a read has its bytes
    /// in its array.
    pub fn replied(&mut self, link: u32, number: u64, answer: Answer, stamp: u64)
        requires room { 0 < self.old.journal.spare }
        requires ready { 0 < self.old.schedule.spare }
        requires settled { self.old.threads.pending ≡ false }
        requires some { IsSome (find (is_begun link number) self.old.outstanding.operations) }
        requires running { self.old.ended ≡ None }
        requires sound { IsSound self.old }
        ensures enters { Enters self.old (Event.Reply link number answer) stamp self.new }
    {
        let Some(operation) = self.outstanding.end_begun(link, number) else {
            unreachable!()
        };
        let value = take_answer(&mut self.frames, &operation.asked, &answer);
        self.note(
            Event::Reply {
                link,
                number,
                answer,
            },
            stamp,
        );
        self.resume(operation.item, value);
    }
}
