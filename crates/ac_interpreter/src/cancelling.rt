//! What a cancel makes of the operations of a core.

ghost use Rattle.std.specs.Prelude.{◌≡◌, Some, None, MatchOption};
ghost use Rattle.core_state.specs.Cancelling.{outcome};
ghost use Rattle.ac_interpreter.specs.inner.Outcomes.{outcome_of};

use crate::running::{CANCELLED, InterpretedCore};
use crate::turns::{Came, next_entry};
use ac_base::{EndWord, Entry, Event, NoMemory};
use cancel_scope::Progress;
use interpreter_state::{Operation, Woken, be_taken};
use work_item::BlockId;

/// What becomes of an operation that a cancel tries.
#[derive(Clone, Copy)]
enum Fate {
    NeverHappens,
    /// Its peer was first.
    IsTaken,
}

// What becomes of the operation that stands on a link under a number, where an event decides it.
fn outcome(link: u32, number: u64, event: &Event) -> Option<Fate>
    ensures { MatchOption result (outcome link number event.now ≡ None) (λ it. outcome link number event.now ≡ Some (outcome_of it)) }
{
    match event {
        Event::Withdraw {
            link: other,
            number: own,
        } if *other == link && *own == number => Some(Fate::NeverHappens),
        Event::Know {
            link: other,
            number: own,
        } if *other == link && *own == number => Some(Fate::IsTaken),
        _ => None,
    }
}

impl<'a> InterpretedCore<'a> {
    ghost use Rattle.std.specs.Prelude.{◌≡◌, ◌<◌, None, List, Bool, length, position, IfOk, OnOk};
    ghost use Rattle.ac_base.specs.declared.entry.Entry.{Entry};
    ghost use Rattle.cancel_scope.specs.declared.operation.Operation.{Operation};
    ghost use Rattle.core_state.specs.Cancelling.{is_to_try};
    ghost use Rattle.ac_semantics.specs.Threads.{is_inside, calls_off};
    ghost use Rattle.interpreter_state.specs.State.{shared_of, held_of};
    ghost use Rattle.interpreter_state.specs.Operations.{IsOldest};
    ghost use Rattle.ac_interpreter.specs.inner.Outcomes.{outcome_of};
    ghost use Rattle.interpreter_steps.specs.Works.{past_first};
    ghost use Rattle.ac_interpreter.specs.inner.Cores.{core_of, IsSameCore};
    ghost use Rattle.ac_interpreter.specs.inner.Cancels.{after_outcome, deciding, trying};
    ghost use Rattle.ac_interpreter.specs.inner.Under.{core_under, held_under, IsMoved};

    // Whether an operation is within a block, and its peer has not begun it.
    fn is_to_try(&self, block: BlockId, operation: &Operation) -> Result<bool, NoMemory>
        ensures { IfOk result (λ it. it ≡ is_to_try (is_inside self.now.threads block) operation.now) }
    {
        let inside = self.threads.is_inside(self.alloc, block, operation)?;
        Ok(inside && !operation.has_begun())
    }

    // The place of the oldest operation within a block that its peer has not begun.
    fn oldest_to_try(&self, block: BlockId) -> Result<Option<usize>, NoMemory>
        ensures { IfOk result (λ place. place
            ≡ position (is_to_try (is_inside self.now.threads block)) self.now.held.operations.items) }
    {
        let operations = self.held.operations.as_slice();
        for index in 0..operations.len() {
            if self.is_to_try(block, &operations[index])? {
                return Ok(Some(index));
            }
        }
        Ok(None)
    }

    // What becomes of the operation at a place.
    fn end_at(&mut self, place: usize, fate: Fate) -> Result<(), NoMemory>
        requires { place < length self.old.held.operations.items }
        ensures state { OnOk result ((test : Operation → Bool) (o : Operation) → IsOldest test self.old.held.operations.items place o
            → core_of self.new ≡ after_outcome test o (core_of self.old) (shared_of self.old.held) (outcome_of fate)) }
        ensures ended { self.new.ended ≡ self.old.ended }
        ensures same { IsSameCore self.old self.new }
    {
        match fate {
            Fate::NeverHappens => {
                let operation = self.held.operations.remove(place);
                self.resume(operation.item(), CANCELLED)
            }
            Fate::IsTaken => match be_taken(&mut self.held.operations, place) {
                Some(Woken { item, value }) => self.resume(item, value),
                None => Ok(()),
            },
        }
    }

    // The next entry decides what becomes of the offer of an operation; where none is left, the core stops.
    fn decide(&mut self, place: usize, number: u64, todo: &[Entry]) -> Result<Came, NoMemory>
        requires inside { place < length self.old.held.operations.items }
        requires running { self.old.ended ≡ None }
        ensures state { IfOk result (λ came. (past : List Entry) (test : Operation → Bool) (o : Operation)
            → IsOldest test self.old.held.operations.items place o → IsMoved came past todo.now
            (deciding test o number (core_under past todo.now (core_of self.old)) todo.now) self.new) }
        ensures same { IsSameCore self.old self.new }
    {
        let Some(entry) = next_entry(todo) else {
            self.end_with(EndWord::Stalled, false);
            return Ok(Came::Nothing);
        };
        if entry.turn != self.held.turn {
            return Ok(Came::Misfit);
        }
        let link = self.held.operations[place].link();
        match outcome(link, number, &entry.event) {
            Some(fate) => {
                self.end_at(place, fate)?;
                Ok(Came::Entry)
            }
            None => Ok(Came::Misfit),
        }
    }

    // The running thread tries the oldest operation within a block that its peer has not begun, and goes on where there is none.
    fn try_oldest(&mut self, block: BlockId, todo: &[Entry]) -> Result<Came, NoMemory>
        requires running { self.old.ended ≡ None }
        ensures state { IfOk result (λ came. (past : List Entry) → IsMoved came past todo.now
            (trying past todo.now block (core_of self.old)) self.new) }
        ensures same { IsSameCore self.old self.new }
    {
        match self.oldest_to_try(block)? {
            None => {
                self.work.drop_first();
                Ok(Came::Nothing)
            }
            Some(place) => match self.held.operations[place].progress() {
                Progress::Waiting => {
                    self.end_at(place, Fate::NeverHappens)?;
                    Ok(Came::Nothing)
                }
                Progress::Offered { number } => self.decide(place, number, todo),
                Progress::Started { .. } => unreachable!(),
            },
        }
    }

    /// The running thread cancels a block, in a core whose journal has these entries still to come.
    pub fn call_off(&mut self, block: BlockId, todo: &[Entry]) -> Result<Came, NoMemory>
        requires running { self.old.ended ≡ None }
        ensures state { IfOk result (λ came. (past : List Entry) → IsMoved came past todo.now
            (calls_off (core_under past todo.now (core_of self.old)) block (held_under past todo.now (held_of self.old.held))
            self.old.work (past_first self.old.work)) self.new) }
        ensures same { IsSameCore self.old self.new }
    {
        self.held.mark(block);
        self.try_oldest(block, todo)
    }
}
