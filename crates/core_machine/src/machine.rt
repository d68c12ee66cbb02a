//! The machine that callers see.

use crate::beginning::{make_first, request_link, set_starts};
use crate::counter::Counter;
use crate::ending::{Ending, word_now};
use crate::numbered::has_begun;
use crate::payload::{carries, payload_of};
use crate::running::Running;
use crate::tried::Tried;
use ac_base::{Answer, CoreEnd, Event, Journal, List, MachineEnd, Message, NoMemory, Payload};
use cancel_scope::Outstanding;
use core_scheduler::Scheduler;
use finish_block::Blocks;
use stack_code::Code;
use std::alloc::Global;
use std::marker::Model;
use thread_table::{Callers, Operands, Parked, ThreadTable};
use work_item::{FrameId, Frames, Item};

/// A core that runs a code.
///
/// Contracts see the code, the core, the bound on its steps, its journal and its state, which is
/// always that of the code's run under the journal.
#[derive(Drop)]
pub struct CoreMachine<'a> {
    running: Running<'a>,
}

impl<'a> Model for CoreMachine<'a> {
    ghost use Rattle.core_machine.specs.Machine.{Machine};

    ghost Value = { Machine };

    ghost use Rattle.core_machine.specs.State.{machine_of, IsSound};

    ghost view = { λ m. machine_of m.running };

    ghost invariant = { λ m. IsSound m.running };
}

impl<'a> CoreMachine<'a> {
    ghost use Rattle.std.specs.Prelude.{◌≡◌, ◌≢◌, ◌<◌, [], length, IfOk};
    ghost use Rattle.core_state.specs.Moves.{On, GoesOn};
    ghost use Rattle.code_meaning.specs.Machine.{exec};
    ghost use Rattle.core_machine.specs.Machine.{IsFirst, IsOnItsWay, IsSameCore, IsSeen, is_idle, has_ended, waits};

    /// A core of the code before its first instruction, with a bound on its steps. Where there is
    /// no room for its frame it has ended.
    ///
    /// It takes the memory of its globals and its frame, and answers `NoMemory` where there is none.
    ///
    /// Condition: the code has so many cores.
    pub fn new(
        alloc: Global,
        code: &'a Code,
        core: u32,
        steps: u64,
    ) -> Result<CoreMachine<'a>, NoMemory>
        requires { core < length code.now.entries }
        ensures code { IfOk result (λ m. m.code ≡ code.now) }
        ensures core { IfOk result (λ m. m.core ≡ core) }
        ensures bound { IfOk result (λ m. m.bound ≡ steps) }
        ensures journal { IfOk result (λ m. m.journal ≡ []) }
        ensures first { IfOk result IsFirst }
        ensures run { IfOk result IsOnItsWay }
    {
        let entered = code.begin(core);
        let mut frames = Frames::new(alloc, code.globals())?;
        set_starts(&mut frames, code.starts());
        let ended = make_first(&mut frames, entered.words)?;
        let mut schedule = Scheduler::new(alloc);
        schedule.reserve(1)?;
        schedule.schedule(Item { number: 0 });
        let first = Parked::new(alloc, entered.at as usize, FrameId { number: 0 }, None);
        let threads = ThreadTable::new(alloc, first)?;
        Ok(CoreMachine {
            running: Running {
                code,
                core,
                bound: steps,
                requests: request_link(code, core),
                journal: Journal::new(alloc),
                frames,
                outstanding: Outstanding::new(alloc),
                frame: FrameId { number: 0 },
                place: 0,
                operands: Operands::new(alloc),
                callers: Callers::new(alloc),
                block: None,
                schedule,
                threads,
                blocks: Blocks::new(alloc),
                steps: 0,
                turn: 0,
                output: Vec::new(alloc),
                count: Counter::new(),
                ended,
                alloc,
            },
        })
    }

    /// Whether the core has not ended, no thread runs and none is ready.
    pub fn idle(&self) -> bool
        ensures { result ≡ is_idle self.now.state }
    {
        self.running.is_idle()
    }

    /// Whether the core has ended.
    pub fn ended(&self) -> bool
        ensures { result ≡ has_ended self.now.state }
    {
        self.running.has_ended()
    }

    /// Whether an operation on that link waits, of which only the core knows.
    pub fn waits(&self, link: u32) -> bool
        ensures { result ≡ waits self.now.state link }
    {
        self.running.outstanding.waits(link)
    }

    /// The journal of the core's entries.
    pub fn journal(&self) -> &Journal
        ensures { result.now.entries ≡ self.now.journal }
    {
        &self.running.journal
    }

    /// The journal, out of the machine.
    pub fn into_journal(self) -> Journal
        ensures { result.entries ≡ self.entry.journal }
    {
        let CoreMachine { running } = self;
        running.journal
    }

    /// What is seen of the core at present; its word is `Stalled` where it has not ended.
    pub fn end(&self, alloc: Global) -> Result<MachineEnd, NoMemory>
        ensures { IfOk result (λ end. IsSeen self.now.state end) }
    {
        let running = &self.running;
        let output = Vec::from_slice(alloc, running.output.as_slice())?;
        let globals = Vec::from_slice(alloc, running.frames.globals())?;
        let waiting = running.outstanding.seen(alloc)?;
        Ok(MachineEnd {
            core: CoreEnd {
                word: word_now(running.ended),
                steps: running.steps,
                output: List::from_vec(output),
                globals: List::from_vec(globals),
                waiting,
                idle: running.is_idle(),
            },
            instructions: running.count.value(),
        })
    }
}

// ---- its dispatch points, where entries come in

impl<'a> CoreMachine<'a> {
    ghost use Rattle.std.specs.Prelude.{◌≡◌, ℕ, ◌<◌, ◌≤◌, List, Some, None, true, false, IsSome, MatchOption, OnOk, IfOk};
    ghost use Rattle.std.specs.Prelude.{find};
    ghost use Rattle.ac_base.specs.declared.entry.Event.{Event};
    ghost use Rattle.cancel_scope.specs.Outstanding.{is_offered, is_begun};
    ghost use Rattle.core_state.specs.Moves.{GoesOn};
    ghost use Rattle.core_state.specs.Arrivals.{offers_on, keeps_room};
    ghost use Rattle.core_state.specs.Cancelling.{NeverHappens, IsTaken};
    ghost use Rattle.stack_code.specs.Kept.{IsRanked};
    ghost use Rattle.code_meaning.specs.Machine.{exec};
    ghost use Rattle.core_machine.specs.Machine.{ComesToEnd, IsOnItsWay, IsSameCore, HasEnded, has_ended, is_idle};
    ghost use Rattle.core_machine.specs.Points.{is_at_point, operations_of, has_to_offer, offer_carries, receives_from, work_left};
    ghost use Rattle.core_machine.specs.Points.{KeepsOperations, HasTracks, HasCome};
    ghost use Rattle.core_machine.specs.Tried.{tried_of, HasDecided};
    ghost use Rattle.replay_laws.specs.Given.{Passes, passes_first};

    /// The code that it runs.
    pub fn code(&self) -> &'a Code
        ensures { result.now ≡ self.now.code }
    {
        self.running.code
    }

    /// Which core of the code it is.
    pub fn core(&self) -> u32
        ensures { result ≡ self.now.core }
    {
        self.running.core
    }

    /// How it has ended, if it has. Under its journal its code comes to an end, which is what is seen
    /// of it where it has ended or is idle; and where the code keeps its ends, so do its operations.
    pub fn ending(&self) -> Option<Ending>
        ensures ended { MatchOption result (has_ended self.now.state ≡ false) (λ ending. HasEnded self.now.state ending) }
        ensures run { IsOnItsWay self.now }
        ensures comes { ComesToEnd self.now }
        ensures ends { KeepsOperations self.now }
    {
        // The ranks are there for the proof alone that the code comes to an end.
        let _ranks = self.running.code.ranks();
        self.running.ended
    }

    /// Whether it has not ended and no thread runs.
    pub fn is_at_point(&self) -> bool
        ensures { result ≡ is_at_point self.now.state }
    {
        self.running.is_at_point()
    }

    /// The allocator with which it was made.
    pub fn alloc(&self) -> Global {
        self.running.alloc
    }

    /// Whether an operation is to be offered on a link.
    ///
    /// Condition: the core has not ended.
    pub fn has_to_offer(&self, link: u32) -> bool
        requires { has_ended self.now.state ≡ false }
        ensures { result ≡ has_to_offer (operations_of self.now.state) link }
    {
        let outstanding = &self.running.outstanding;
        // Where there is no request, no operation need be asked.
        if link == self.running.requests && !outstanding.has_requests() {
            return false;
        }
        outstanding.to_offer(link).is_some()
    }

    /// What an offer of the oldest operation that is to be offered on a link carries. It takes the
    /// memory of a write's bytes.
    ///
    /// Conditions: the core has not ended, and there is such an operation.
    pub fn to_offer(&self, link: u32) -> Result<Payload, NoMemory>
        requires going { has_ended self.now.state ≡ false }
        requires some { has_to_offer (operations_of self.now.state) link ≡ true }
        ensures { IfOk result (λ payload. offer_carries (operations_of self.now.state) link payload ≡ true) }
    {
        let Some(operation) = self.running.outstanding.to_offer(link) else {
            unreachable!()
        };
        payload_of(self.running.alloc, &operation.asked)
    }

    /// Whether an operation waits for a message from a link.
    ///
    /// Condition: the core has not ended.
    pub fn receives_from(&self, link: u32) -> bool
        requires { has_ended self.now.state ≡ false }
        ensures { result ≡ receives_from (operations_of self.now.state) link }
    {
        self.running.outstanding.wants(link)
    }

    /// Makes room for an entry, and for the thread that it may wake. After want of memory all is as
    /// before.
    pub fn make_room(&mut self) -> Result<(), NoMemory>
        ensures same { IsSameCore self.old self.new }
        ensures state { self.new.state ≡ self.old.state }
        ensures room { OnOk result (self.new.room ≡ true) }
        ensures tracks { HasTracks self.new }
        ensures run { IsOnItsWay self.new }
    {
        self.running.make_room()
    }

    /// The oldest operation that is to be offered on a link was offered under that number, by an
    /// offer that carries this.
    ///
    /// Conditions: there is room for an entry, no thread runs, there is such an operation, an offer of
    /// it carries this, and as many offers were made on the link before.
    pub fn offered(&mut self, link: u32, number: u64, payload: Payload, stamp: u64)
        requires room { self.old.room ≡ true }
        requires point { is_at_point self.old.state ≡ true }
        requires next { number ≡ offers_on link self.old.journal }
        requires oldest { offer_carries (operations_of self.old.state) link payload ≡ true }
        ensures come { HasCome self.old (Event.Offer link number payload) stamp self.new }
        ensures less { (ranks : List ℕ) → work_left ranks self.new ≤ work_left ranks self.old }
        ensures run { IsOnItsWay self.new }
    {
        self.running.offered(link, number, payload, stamp);
    }

    /// The offer under that number was taken: its operation has ended, or it is a request and has
    /// begun.
    ///
    /// Conditions: there is room for an entry, no thread runs, and an operation stands under that
    /// number.
    pub fn know(&mut self, link: u32, number: u64, stamp: u64)
        requires room { self.old.room ≡ true }
        requires point { is_at_point self.old.state ≡ true }
        requires some { IsSome (find (is_offered link number) (operations_of self.old.state)) }
        ensures come { HasCome self.old (Event.Know link number) stamp self.new }
        ensures less { (ranks : List ℕ) → work_left ranks self.new ≤ work_left ranks self.old }
        ensures run { IsOnItsWay self.new }
    {
        self.running.know(link, number, stamp);
    }

    /// The request that has begun under that number has its answer, and has ended: a read has its bytes
    /// in its array.
    ///
    /// Conditions: there is room for an entry, no thread runs, and a request has begun under that
    /// number.
    pub fn replied(&mut self, link: u32, number: u64, answer: Answer, stamp: u64)
        requires room { self.old.room ≡ true }
        requires point { is_at_point self.old.state ≡ true }
        requires some { IsSome (find (is_begun link number) (operations_of self.old.state)) }
        ensures come { HasCome self.old (Event.Reply link number answer) stamp self.new }
        ensures less { (ranks : List ℕ) → work_left ranks self.new ≤ work_left ranks self.old }
        ensures run { IsOnItsWay self.new }
    {
        self.running.replied(link, number, answer, stamp);
    }

    /// A message has come over a link, for the oldest operation that waits for one, which has ended.
    ///
    /// Conditions: there is room for an entry, no thread runs, and an operation waits for a message
    /// from the link.
    pub fn got(&mut self, link: u32, number: u64, value: Message, stamp: u64)
        requires room { self.old.room ≡ true }
        requires point { is_at_point self.old.state ≡ true }
        requires some { receives_from (operations_of self.old.state) link ≡ true }
        ensures come { HasCome self.old (Event.Got link number value) stamp self.new }
        ensures less { (ranks : List ℕ) → work_left ranks self.new ≤ work_left ranks self.old }
        ensures run { IsOnItsWay self.new }
    {
        self.running.got(link, number, value, stamp);
    }

    /// A withdrawn offer was passed over on a link, from which an operation waits for a message; it
    /// goes on waiting.
    ///
    /// Conditions: there is room for an entry, no thread runs, and an operation waits for a message
    /// from the link.
    pub fn passed(&mut self, link: u32, number: u64, stamp: u64)
        requires room { self.old.room ≡ true }
        requires point { is_at_point self.old.state ≡ true }
        requires some { receives_from (operations_of self.old.state) link ≡ true }
        ensures come { HasCome self.old (Event.Pass link number) stamp self.new }
        ensures less { (ranks : List ℕ) → work_left ranks self.new ≤ work_left ranks self.old }
        ensures run { IsOnItsWay self.new }
    {
        self.running.passed(link, number, stamp);
    }

    /// The room of a withdrawn offer was given back.
    ///
    /// Conditions: there is room for an entry, no thread runs, and the offer was withdrawn and keeps
    /// its room.
    pub fn roomed(&mut self, link: u32, number: u64, stamp: u64)
        requires room { self.old.room ≡ true }
        requires point { is_at_point self.old.state ≡ true }
        requires keeps { keeps_room link number self.old.journal ≡ true }
        ensures come { HasCome self.old (Event.Room link number) stamp self.new }
        ensures less { (ranks : List ℕ) → work_left ranks self.new ≤ work_left ranks self.old }
        ensures run { IsOnItsWay self.new }
    {
        self.running.roomed(link, number, stamp);
    }

    /// The offer for which the core asks for an outcome: it stands at a cancel, and the oldest
    /// operation within the block that its peer has not begun was offered.
    pub fn tried(&self) -> Option<Tried>
        ensures tried { result ≡ tried_of self.now.code self.now.state }
        ensures tracks { HasTracks self.now }
    {
        self.running.tried()
    }

    /// The offer that a cancel tries was withdrawn: its operation never happens.
    ///
    /// Conditions: there is room for an entry, and the core asks for the outcome of that offer.
    pub fn withdrawn(&mut self, tried: Tried, stamp: u64)
        requires room { self.old.room ≡ true }
        requires asks { tried_of self.old.code self.old.state ≡ Some tried }
        ensures decided { HasDecided self.old tried NeverHappens (Event.Withdraw tried.link tried.number) stamp self.new }
        ensures less { (ranks : List ℕ) → work_left ranks self.new < work_left ranks self.old }
        ensures run { IsOnItsWay self.new }
    {
        let event = Event::Withdraw {
            link: tried.link,
            number: tried.number,
        };
        self.running.decide_withdrawn(event, stamp);
    }

    /// The offer that a cancel tries was taken: its operation is done, or it is a request and has
    /// begun.
    ///
    /// Conditions: as those of `withdrawn`.
    pub fn taken(&mut self, tried: Tried, stamp: u64)
        requires room { self.old.room ≡ true }
        requires asks { tried_of self.old.code self.old.state ≡ Some tried }
        ensures decided { HasDecided self.old tried IsTaken (Event.Know tried.link tried.number) stamp self.new }
        ensures less { (ranks : List ℕ) → work_left ranks self.new < work_left ranks self.old }
        ensures run { IsOnItsWay self.new }
    {
        let event = Event::Know {
            link: tried.link,
            number: tried.number,
        };
        self.running.decide_taken(event, stamp);
    }

    /// The running thread goes on as long as it is the same thread; where none runs, the front of
    /// the ready list does. An entry could come in before its first move, and before no other. The
    /// ranks are there for the proof alone that the core comes to its end.
    ///
    /// Conditions: the core has not ended, is not idle, and asks for no outcome.
    pub fn turn(&mut self, _ranks: &[u64]) -> Result<(), NoMemory>
        requires going { has_ended self.old.state ≡ false }
        requires busy { is_idle self.old.state ≡ false }
        requires decided { tried_of self.old.code self.old.state ≡ None }
        requires ranked { IsRanked self.old.code _ranks.now }
        ensures goes { GoesOn (exec self.old.code self.old.bound) self.old.state self.new.state }
        ensures same { IsSameCore self.old self.new }
        ensures run { IsOnItsWay self.new }
        ensures passes { (turn : ℕ) → passes_first self.old.code turn self.old.state ≡ true
            → (k : ℕ) × Passes self.old.code self.old.bound turn k self.old.state self.new.state }
        ensures less { OnOk result (work_left _ranks.now self.new < work_left _ranks.now self.old) }
    {
        self.running.turn(_ranks)
    }
}

// ---- what a journal that is given asks

impl<'a> CoreMachine<'a> {
    ghost use Rattle.std.specs.Prelude.{◌≡◌, false, find, is_some};
    ghost use Rattle.cancel_scope.specs.Outstanding.{is_offered, is_begun};
    ghost use Rattle.core_machine.specs.Machine.{has_ended};
    ghost use Rattle.core_machine.specs.Points.{IsOfTurn, offer_carries, operations_of};

    /// The turn of the core, where it has not ended. The whole of its journal has come in.
    pub fn turns(&self) -> u64
        ensures { IsOfTurn self.now result }
    {
        self.running.turn
    }

    /// Whether an offer of the oldest operation that is to be offered on a link carries this.
    ///
    /// Condition: the core has not ended.
    pub fn would_offer(&self, link: u32, payload: &Payload) -> bool
        requires { has_ended self.now.state ≡ false }
        ensures { result ≡ offer_carries (operations_of self.now.state) link payload.now }
    {
        match self.running.outstanding.to_offer(link) {
            None => false,
            Some(operation) => carries(&operation.asked, payload),
        }
    }

    /// Whether an operation stands on a link under that number.
    ///
    /// Condition: the core has not ended.
    pub fn has_offered(&self, link: u32, number: u64) -> bool
        requires { has_ended self.now.state ≡ false }
        ensures { result ≡ is_some (find (is_offered link number) (operations_of self.now.state)) }
    {
        self.running.outstanding.offered(link, number).is_some()
    }

    /// Whether a request has begun on a link under that number.
    ///
    /// Condition: the core has not ended.
    pub fn has_begun(&self, link: u32, number: u64) -> bool
        requires { has_ended self.now.state ≡ false }
        ensures { result ≡ is_some (find (is_begun link number) (operations_of self.now.state)) }
    {
        has_begun(&self.running.outstanding, link, number)
    }
}
