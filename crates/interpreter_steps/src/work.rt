//! What a thread has still to do.

ghost use Rattle.std.specs.Prelude.{◌≡◌, [], ◌∷◌, ◌++◌, OnOk, IfOk, MatchOption};
ghost use Rattle.ac_semantics.specs.Work.{before, ahead, past_loop, at_turn, closes, given, next_part};
ghost use Rattle.ac_semantics.specs.Work as s;
ghost use Rattle.interpreter_steps.specs.Works.{work_of, past_first};

use crate::pending::Around;
use ac_base::NoMemory;
use ac_commands::Command;
use interpreter_state::Datum;
use std::alloc::Global;
use std::marker::Model;
use work_item::{BlockId, FrameId};

/// A statement with the frame in which it runs, or what is left of a loop, a call or a block.
#[derive(Drop)]
pub enum Work<'a> {
    Do(FrameId, &'a Command),
    /// A statement that waits for a value, and what is round the place where it will stand.
    Pend(FrameId, &'a Command, Around<'a>),
    /// The same, where this value has come.
    Given(Datum, FrameId, &'a Command, Around<'a>),
    /// A cancel that goes on, of the block whose number stands in that slot so many levels up.
    CallOff(FrameId, u32, u32),
    /// The end of a loop's body.
    Turn(FrameId, &'a Command),
    /// The finish of a block that was entered.
    Close(BlockId),
    /// The end of a called function that runs in this frame.
    Back(FrameId),
    /// The end of the core's entry.
    Leave,
    /// The end of an async body that runs in this frame.
    End(FrameId),
}

// An equal one.
fn copy_work<'a>(alloc: Global, work: &Work<'a>) -> Result<Work<'a>, NoMemory>
    ensures { IfOk result (λ it. work_of it ≡ work_of work.now) }
{
    Ok(match work {
        Work::Do(frame, command) => Work::Do(*frame, command),
        Work::Pend(frame, command, around) => Work::Pend(*frame, command, around.copy(alloc)?),
        Work::Given(value, frame, command, around) => {
            Work::Given(*value, *frame, command, around.copy(alloc)?)
        }
        Work::CallOff(frame, level, slot) => Work::CallOff(*frame, *level, *slot),
        Work::Turn(frame, turned) => Work::Turn(*frame, turned),
        Work::Close(block) => Work::Close(*block),
        Work::Back(frame) => Work::Back(*frame),
        Work::Leave => Work::Leave,
        Work::End(frame) => Work::End(*frame),
    })
}

/// What a thread has still to do.
///
/// Contracts see what comes next first.
#[derive(Drop)]
pub struct Agenda<'a> {
    items: Vec<Work<'a>>,
}

impl<'a> Model for Agenda<'a> {
    ghost use Rattle.std.specs.Prelude.{List, map, reverse};
    ghost use Rattle.ac_semantics.specs.Work.{Work};
    ghost use Rattle.interpreter_steps.specs.Works.{work_of};
    ghost use Rattle.ac_commands.specs.contracts.value.Value as v;
    ghost use Rattle.ac_commands.specs.contracts.value.ValueLink as l;
    ghost use Rattle.ac_commands.specs.contracts.command.Command as e;
    ghost use Rattle.std.specs.Coded.{codes};

    ghost Value = { List Work };

    ghost coded = { Prim.hlevel (codes, v.the_row.coded, l.the_row.coded, e.the_row.coded) };

    ghost view = { λ it. map work_of (reverse it.items.items) };
}

impl<'a> Agenda<'a> {
    /// Nothing.
    pub fn new(alloc: Global) -> Agenda<'a>
        ensures { result ≡ [] }
    {
        Agenda {
            items: Vec::new(alloc),
        }
    }

    /// Puts one in front.
    pub(crate) fn push(&mut self, work: Work<'a>) -> Result<(), NoMemory>
        ensures { OnOk result (self.new ≡ work_of work.entry ∷ self.old) }
    {
        self.items.push(work)?;
        Ok(())
    }

    /// Takes what comes next.
    pub(crate) fn pop(&mut self) -> Option<Work<'a>>
        ensures { MatchOption result ((self.old ≡ []) × (self.new ≡ [])) (λ x. self.old ≡ work_of x ∷ self.new) }
    {
        self.items.pop()
    }

    /// An equal one.
    pub fn copy(&self, alloc: Global) -> Result<Agenda<'a>, NoMemory>
        ensures { IfOk result (λ it. it ≡ self.now) }
    {
        let mut items = Vec::new(alloc);
        for work in &self.items {
            items.push(copy_work(alloc, work)?)?;
        }
        Ok(Agenda { items })
    }

    /// Puts statements in front, each in that frame.
    pub(crate) fn push_all(&mut self, frame: FrameId, body: &'a [Command]) -> Result<(), NoMemory>
        ensures { OnOk result (self.new ≡ before frame body.now self.old) }
    {
        let mut index = body.len();
        'body: while index > 0 {
            index -= 1;
            self.push(Work::Do(frame, &body[index]))?;
        }
        Ok(())
    }

    /// What a thread has to do that enters a function of the core in this frame: its body, and then the core has ended.
    pub fn of_entry(
        alloc: Global,
        frame: FrameId,
        body: &'a [Command],
    ) -> Result<Agenda<'a>, NoMemory>
        ensures { IfOk result (λ work. work ≡ before frame body.now (s.Leave ∷ [])) }
    {
        let mut work = Agenda::new(alloc);
        work.push(Work::Leave)?;
        work.push_all(frame, body)?;
        Ok(work)
    }

    /// Drops what comes next.
    pub fn drop_first(&mut self)
        ensures { self.new ≡ past_first self.old }
    {
        let _ = self.pop();
    }

    // After its body a loop goes on with its next part and its test.
    fn push_loop(&mut self, frame: FrameId, turned: &'a Command) -> Result<(), NoMemory>
        ensures { OnOk result (self.new ≡ before frame (next_part turned.now) (s.Do frame turned.now ∷ self.old)) }
    {
        self.push(Work::Do(frame, turned))?;
        if let Command::For { next, .. } = turned {
            self.push_all(frame, next.as_slice())?;
        }
        Ok(())
    }

    /// The work from its next step on.
    pub(crate) fn go_ahead(&mut self) -> Result<(), NoMemory>
        ensures { OnOk result (self.new ≡ ahead self.old) }
    {
        match self.pop() {
            Some(Work::Turn(frame, turned)) => self.push_loop(frame, turned),
            Some(other) => self.push(other),
            None => Ok(()),
        }
    }

    /// Drops all up to the end of the innermost loop, and that too.
    pub(crate) fn leave_loop(&mut self)
        ensures { self.new ≡ past_loop self.old }
    {
        'items: while let Some(work) = self.pop() {
            if matches!(&work, Work::Turn(..)) {
                return;
            }
        }
    }

    /// Drops all up to the end of the innermost loop.
    pub(crate) fn turn_loop(&mut self) -> Result<(), NoMemory>
        ensures { OnOk result (self.new ≡ at_turn self.old) }
    {
        'items: while let Some(work) = self.pop() {
            if matches!(&work, Work::Turn(..)) {
                return self.push(work);
            }
        }
        Ok(())
    }

    /// The blocks that were entered and not left, the innermost first, before others.
    pub fn closes(&self, alloc: Global, others: &[BlockId]) -> Result<Vec<BlockId>, NoMemory>
        ensures { IfOk result (λ blocks. blocks.items ≡ closes self.now ++ others.now) }
    {
        let mut blocks = Vec::new(alloc);
        let mut left = self.copy(alloc)?;
        'items: while let Some(work) = left.pop() {
            if let Work::Close(block) = work {
                blocks.push(block)?;
            }
        }
        blocks.extend_from_slice(others)?;
        Ok(blocks)
    }

    /// The value has come for which the first statement waits.
    pub fn give(&mut self, value: Datum) -> Result<(), NoMemory>
        ensures { OnOk result (self.new ≡ given value self.old) }
    {
        match self.pop() {
            Some(Work::Pend(frame, command, around)) => self.push(Work::Given(
                value, frame, command, around,
            )),
            Some(other) => self.push(other),
            None => Ok(()),
        }
    }
}
