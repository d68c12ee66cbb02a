//! A core that goes from step to step.

ghost use Rattle.std.specs.Prelude.{◌≡◌, ◌<◌, ◌^◌, [], length, map, IfOk, Some, None, false, if◌then◌else◌};
ghost use Rattle.ac_base.specs.declared.ends.EndWord.TheVariants.{Trapped};
ghost use Rattle.ac_base.specs.declared.ends.Trap.TheVariants.{StackFull};
ghost use Rattle.cancel_scope.specs.Outstanding.{waiting_as};
ghost use Rattle.core_state.specs.Shared.{request_link};
ghost use Rattle.ac_semantics.specs.Threads.{with_starts, first_state};
ghost use Rattle.ac_interpreter.specs.inner.Cores.{state_of};

use crate::threads::{Phase, Threads};
use ac_base::{CoreEnd, EndWord, List, NoMemory, Trap, Waiting};
use ac_commands::{Function, Resolved, Start};
use interpreter_state::{Asked, Datum, Held, Memory, Operation};
use interpreter_steps::{Agenda, Next};
use std::alloc::Global;
use std::collections::VecDeque;
use std::mem;
use work_item::{FrameId, Item};

/// The value of an operation that never happens.
pub const CANCELLED: i64 = -1;

/// How a core has ended; it is idle where it only waits.
#[derive(Clone, Copy)]
pub struct CoreStop {
    pub word: EndWord,
    pub idle: bool,
}

/// A core of a program: what it holds, the running thread and its work, the ready list, all threads, and how it has ended.
#[derive(Drop)]
pub struct InterpretedCore<'a> {
    pub program: &'a Resolved,
    pub bound: u64,
    pub held: Held,
    pub running: Option<Item>,
    pub work: Agenda<'a>,
    pub ready: VecDeque<Item>,
    pub threads: Threads<'a>,
    pub ended: Option<CoreStop>,
    pub alloc: Global,
}

impl<'a> InterpretedCore<'a> {
    ghost use Rattle.std.specs.Prelude.{◌≡◌, None, Some, IsSome, OnOk, IfOk, []};
    ghost use Rattle.work_item.specs.Store.{released};
    ghost use Rattle.core_state.specs.Moves.{On, Over};
    ghost use Rattle.ac_semantics.specs.Held.{with_store, any_marked, seen_of};
    ghost use Rattle.ac_semantics.specs.Threads.{Ended, thread_at, path, stops, starts, wakes_owner};
    ghost use Rattle.ac_semantics.specs.Threads.{operates, resumed, applied, dispatched};
    ghost use Rattle.work_item.specs.declared.cell.Cell.TheVariants as cell;
    ghost use Rattle.interpreter_state.specs.Operations.{asked_of};
    ghost use Rattle.ac_interpreter.specs.inner.Phases.{phase_of};
    ghost use Rattle.interpreter_state.specs.State.{held_of};
    ghost use Rattle.interpreter_steps.specs.Nexts.{next_with};
    ghost use Rattle.ac_interpreter.specs.inner.Plain.{IsPlain};
    ghost use Rattle.ac_interpreter.specs.inner.Cores.{core_of, state_of, IsSameCore};

    // The running thread stops with the work that it has now.
    fn stop(&mut self, item: Item, phase: Phase)
        ensures state { core_of self.new
            ≡ stops (core_of self.old) item (phase_of phase) (held_of self.old.held) self.old.work self.old.ready.items }
        ensures ended { self.new.ended ≡ self.old.ended }
        ensures same { IsSameCore self.old self.new }
    {
        let work = mem::replace(&mut self.work, Agenda::new(self.alloc));
        self.threads.park(item, phase, work);
        self.running = None;
    }

    // A thread is started and runs; its creator goes to the front.
    fn start(&mut self, item: Item, own: Agenda<'a>) -> Result<(), NoMemory>
        ensures state { OnOk result (core_of self.new ≡ starts (core_of self.old) item (held_of self.old.held) own.entry self.old.work) }
        ensures ended { self.new.ended ≡ self.old.ended }
        ensures same { IsSameCore self.old self.new }
    {
        let around = self.work.closes(self.alloc, self.threads.around(item))?;
        let work = mem::replace(&mut self.work, own);
        self.threads.park(item, Phase::Active, work);
        let born = self.threads.push(around, Agenda::new(self.alloc))?;
        self.ready.push_front(item)?;
        self.running = Some(born);
        Ok(())
    }

    // The thread has ended; an owner whose block has no living thread any more goes to the front.
    fn die(&mut self, item: Item, frame: FrameId) -> Result<(), NoMemory>
        ensures state { OnOk result (core_of self.new ≡ wakes_owner (stops (core_of self.old) item Ended
            (with_store (held_of self.old.held) (released self.old.held.memory frame)) [] self.old.ready.items)) }
        ensures ended { self.new.ended ≡ self.old.ended }
        ensures same { IsSameCore self.old self.new }
    {
        self.held.memory.release(frame);
        self.threads
            .park(item, Phase::Ended, Agenda::new(self.alloc));
        let _ = mem::replace(&mut self.work, Agenda::new(self.alloc));
        self.running = None;
        if let Some(owner) = self.threads.woken() {
            self.ready.push_front(owner)?;
            self.threads.wake(owner);
        }
        Ok(())
    }

    // An operation starts, and its thread waits; in a cancelled block it has its value at once.
    fn operate(&mut self, item: Item, link: u32, asked: Asked) -> Result<(), NoMemory>
        ensures state { OnOk result (core_of self.new
            ≡ operates (any_marked self.old.held.marks.items (path self.old.work (thread_at self.old.threads item)))
            (core_of self.old) item link (asked_of asked) (held_of self.old.held) self.old.work) }
        ensures ended { self.new.ended ≡ self.old.ended }
        ensures same { IsSameCore self.old self.new }
    {
        let path = self.work.closes(self.alloc, self.threads.around(item))?;
        if self.held.any_marked(path.as_slice()) {
            return self.work.give(Datum::int(CANCELLED));
        }
        self.held.operate(link, asked, item)?;
        self.stop(item, Phase::Active);
        Ok(())
    }

    /// A thread whose operation has ended has its value, and goes to the back.
    pub fn resume(&mut self, item: Item, value: i64) -> Result<(), NoMemory>
        ensures state { OnOk result (core_of self.new ≡ resumed (core_of self.old) (cell.Int value) (Some item)) }
        ensures ended { self.new.ended ≡ self.old.ended }
        ensures same { IsSameCore self.old self.new }
    {
        self.threads.give(item, Datum::int(value))?;
        self.ready.push_back(item)?;
        Ok(())
    }

    /// The core has ended.
    pub fn end_with(&mut self, word: EndWord, idle: bool)
        ensures state { state_of self.new ≡ Over (seen_of word idle (held_of self.old.held)) }
        ensures same { IsSameCore self.old self.new }
    {
        self.ended = Some(CoreStop { word, idle });
    }

    /// What a step of the running thread comes to that is no cancel.
    pub fn apply(&mut self, item: Item, next: Next<'a>) -> Result<(), NoMemory>
        requires running { self.old.ended ≡ None }
        requires plain { IsPlain next }
        ensures state { OnOk result (state_of self.new
            ≡ applied (core_of self.old) item (next_with next.entry (held_of self.old.held) self.old.work)) }
        ensures same { IsSameCore self.old self.new }
    {
        match next {
            Next::Goes => Ok(()),
            Next::Ends(word) => {
                self.end_with(word, false);
                Ok(())
            }
            Next::Starts(_, own) => self.start(item, own),
            Next::Yields => {
                self.stop(item, Phase::Active);
                self.ready.push_back(item)?;
                Ok(())
            }
            Next::Arrives(block) => {
                if !self.threads.none_within(block) {
                    self.stop(item, Phase::AtFinish(block));
                }
                Ok(())
            }
            Next::Operates(link, asked) => self.operate(item, link, asked),
            Next::Dies(frame) => self.die(item, frame),
            Next::Cancels(_) | Next::Stays => unreachable!(),
        }
    }

    /// No thread runs: the front of the ready list does, or the core waits.
    pub fn dispatch(&mut self) -> Result<(), NoMemory>
        requires running { self.old.ended ≡ None }
        requires idle { self.old.running ≡ None }
        ensures state { OnOk result (state_of self.new ≡ dispatched (core_of self.old) self.old.ready.items) }
        ensures same { IsSameCore self.old self.new }
    {
        let Some(item) = self.ready.pop_front() else {
            self.end_with(EndWord::Stalled, true);
            return Ok(());
        };
        if self.held.turn == u64::MAX {
            self.end_with(EndWord::OutOfSteps, false);
            return Ok(());
        }
        self.held.turn += 1;
        let work = self.threads.work(self.alloc, item)?;
        let _ = mem::replace(&mut self.work, work);
        self.running = Some(item);
        Ok(())
    }

    /// What is seen of a core that has ended.
    pub fn end(self) -> Result<CoreEnd, NoMemory>
        requires ended { IsSome self.ended }
        ensures { IfOk result (λ end. state_of self.entry ≡ Over (Some end)) }
    {
        let InterpretedCore {
            held,
            ended,
            alloc,
            ..
        } = self;
        let Held {
            steps,
            output,
            memory,
            operations,
            ..
        } = held;
        let Some(CoreStop { word, idle }) = ended else {
            unreachable!()
        };
        let waiting = seen_operations(alloc, operations.as_slice())?;
        Ok(CoreEnd {
            word,
            steps,
            output: List::from_vec(output),
            globals: List::from_vec(memory.into_globals()),
            waiting: List::from_vec(waiting),
            idle,
        })
    }
}

// What is seen of operations that have not ended.
fn seen_operations(alloc: Global, operations: &[Operation]) -> Result<Vec<Waiting>, NoMemory>
    ensures { IfOk result (λ waiting. waiting.items ≡ map waiting_as operations.now) }
{
    let mut waiting = Vec::new(alloc);
    for operation in operations {
        waiting.push(operation.seen())?;
    }
    Ok(waiting)
}

// Sets the globals that start with something else than 0.
fn set_starts(memory: &mut Memory, starts: &[Start])
    ensures globals { memory.new.globals ≡ with_starts starts.now memory.old.globals }
    ensures frames { memory.new.frames ≡ memory.old.frames }
{
    for start in starts {
        memory.write_global(start.slot, start.value);
    }
}

// Where there is no room for its first frame, a core has ended.
fn first_halt(has_room: bool) -> Option<CoreStop>
    ensures { result ≡ (if has_room then None else Some (record { word = Trapped StackFull; idle = false })) }
{
    if has_room {
        None
    } else {
        Some(CoreStop {
            word: EndWord::Trapped(Trap::StackFull),
            idle: false,
        })
    }
}

/// A core, by its number, that is about to enter a function; where there is no room for its frame, it has ended.
pub fn begin_core<'a>(
    alloc: Global,
    program: &'a Resolved,
    core: u32,
    function: &'a Function,
    bound: u64,
) -> Result<InterpretedCore<'a>, NoMemory>
    requires link { request_link (length program.now.channels) core < 2 ^ 32 }
    ensures program { IfOk result (λ c. c.program.now ≡ program.now) }
    ensures bound { IfOk result (λ c. c.bound ≡ bound) }
    ensures first { IfOk result (λ c. state_of c ≡ first_state program.now core function.now []) }
{
    let mut memory = Memory::new(alloc, program.slots)?;
    set_starts(&mut memory, program.starts.as_slice());
    let has_room = memory.has_words(u64::from(function.slots));
    let mut threads = Threads::new(alloc);
    let mut ready = VecDeque::new(alloc);
    if has_room {
        memory.make(
            None,
            vec![in alloc; Datum::int(0); function.slots as usize]?,
        )?;
        let work = Agenda::of_entry(alloc, FrameId { number: 0 }, function.body.as_slice())?;
        let first = threads.push(Vec::new(alloc), work)?;
        ready.push_back(first)?;
    }
    Ok(InterpretedCore {
        program,
        bound,
        held: Held {
            steps: 0,
            turn: 0,
            output: Vec::new(alloc),
            memory,
            marks: Vec::new(alloc),
            operations: Vec::new(alloc),
            requests: program.channels.len() as u32 + core,
        },
        running: None,
        work: Agenda::new(alloc),
        ready,
        threads,
        ended: first_halt(has_room),
        alloc,
    })
}
