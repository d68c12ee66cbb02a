//! A move of a core under a journal.

ghost use Rattle.std.specs.Prelude.{◌≡◌, [], ◌∷◌, drop, nat_eq, true, MatchOption};
ghost use Rattle.ac_interpreter.specs.inner.Under.{IsLater};

use crate::running::InterpretedCore;
use ac_base::{Entry, Event, NoMemory};
use interpreter_state::Woken;
use interpreter_steps::{Next, next_step};
use work_item::Item;

/// What has come in with a move: nothing, the next entry, or one that does not fit.
#[derive(Clone, Copy)]
pub enum Came {
    Nothing,
    Entry,
    Misfit,
}

/// The first of the entries that are still to come.
pub fn next_entry(todo: &[Entry]) -> Option<&Entry>
    ensures { MatchOption result (todo.now ≡ []) (λ e. todo.now ≡ e.now ∷ drop 1 todo.now) }
{
    if todo.is_empty() {
        None
    } else {
        Some(&todo[0])
    }
}

// The same, where it is of this turn.
fn entry_now(todo: &[Entry], turn: u64) -> Option<&Entry>
    ensures { MatchOption result (IsLater todo.now turn)
        (λ e. (todo.now ≡ e.now ∷ drop 1 todo.now) × (nat_eq e.now.turn turn ≡ true)) }
{
    let entry = next_entry(todo)?;
    if entry.turn == turn {
        Some(entry)
    } else {
        None
    }
}

impl<'a> InterpretedCore<'a> {
    ghost use Rattle.std.specs.Prelude.{◌≡◌, None, Some, List, IfOk, MatchBool};
    ghost use Rattle.ac_base.specs.declared.entry.Entry.{Entry};
    ghost use Rattle.ac_semantics.specs.Statements.{Stays, next_of};
    ghost use Rattle.core_state.specs.Moves.{On};
    ghost use Rattle.core_state.specs.Arrivals.{Arrival, arrives};
    ghost use Rattle.ac_semantics.specs.Threads.{arrived, rests, step};
    ghost use Rattle.interpreter_state.specs.State.{shared_of, held_of};
    ghost use Rattle.ac_interpreter.specs.inner.Cores.{core_of, IsSameCore};
    ghost use Rattle.ac_interpreter.specs.inner.Under.{core_under, IsMoved};

    // Whether an event fits, which has then come in after these entries.
    fn arrive(&mut self, past: &[Entry], event: &Event) -> Result<bool, NoMemory>
        ensures fits { IfOk result (λ fits. MatchBool fits
            ((x : Arrival) × (arrives past.now self.old.held.memory self.old.held.operations.items event.now ≡ Some x)
            × (core_of self.new ≡ arrived (core_of self.old) (shared_of self.old.held) x))
            ((arrives past.now self.old.held.memory self.old.held.operations.items event.now ≡ None))) }
        ensures ended { self.new.ended ≡ self.old.ended }
        ensures same { IsSameCore self.old self.new }
    {
        match self.held.take_in(past, event) {
            Ok(Some(Woken { item, value })) => {
                self.resume(item, value)?;
                Ok(true)
            }
            Ok(None) => Ok(true),
            Err(_) => Ok(false),
        }
    }

    // No thread runs: the next entry comes in where it is of this turn, or the front of the ready list runs.
    fn rest(&mut self, past: &[Entry], todo: &[Entry]) -> Result<Came, NoMemory>
        requires running { self.old.ended ≡ None }
        requires idle { self.old.running ≡ None }
        ensures state { IfOk result (λ came. IsMoved came past.now todo.now
            (rests (core_under past.now todo.now (core_of self.old))) self.new) }
        ensures same { IsSameCore self.old self.new }
    {
        match entry_now(todo, self.held.turn) {
            None => {
                self.dispatch()?;
                Ok(Came::Nothing)
            }
            Some(entry) => {
                if self.arrive(past, &entry.event)? {
                    Ok(Came::Entry)
                } else {
                    Ok(Came::Misfit)
                }
            }
        }
    }

    // The running thread does what comes next.
    fn go_on(&mut self, item: Item, todo: &[Entry]) -> Result<Came, NoMemory>
        requires running { self.old.ended ≡ None }
        requires item { self.old.running ≡ Some item }
        requires meaning { next_of self.old.program.now self.old.bound self.old.work (held_of self.old.held) ≡ Stays → ⊥ }
        ensures state { IfOk result (λ came. (past : List Entry) → IsMoved came past todo.now
            (step self.old.program.now self.old.bound (core_under past todo.now (core_of self.old))) self.new) }
        ensures same { IsSameCore self.old self.new }
    {
        let next = next_step(
            self.alloc,
            self.program,
            self.bound,
            &mut self.work,
            &mut self.held,
        )?;
        match next {
            Next::Cancels(block) => self.call_off(block, todo),
            next => {
                self.apply(item, next)?;
                Ok(Came::Nothing)
            }
        }
    }

    /// One move of a core that has not ended, where these entries have come in, and those are still to come.
    pub fn turn(&mut self, past: &[Entry], todo: &[Entry]) -> Result<Came, NoMemory>
        requires running { self.old.ended ≡ None }
        requires meaning { step self.old.program.now self.old.bound (core_under past.now todo.now (core_of self.old))
            ≡ On (core_under past.now todo.now (core_of self.old)) → ⊥ }
        ensures state { IfOk result (λ came. IsMoved came past.now todo.now
            (step self.old.program.now self.old.bound (core_under past.now todo.now (core_of self.old))) self.new) }
        ensures same { IsSameCore self.old self.new }
    {
        match self.running {
            None => self.rest(past, todo),
            Some(item) => self.go_on(item, todo),
        }
    }
}
