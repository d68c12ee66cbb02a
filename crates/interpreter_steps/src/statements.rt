//! What a step of a thread does, by the work that it has.

ghost use Rattle.std.specs.Prelude.{◌≡◌, [], ◌∷◌, List, Ok, Err, IfOk, OnOk, IfErr, map, length, reverse, replicate};
ghost use Rattle.std.specs.Prelude.{slice_get, slice_index_or, Some, None, MatchOption};
ghost use Rattle.work_item.specs.Store.{no_int, int_in, place_in, next_frame, released};
ghost use Rattle.work_item.specs.declared.cell.Cell.TheVariants as c;
ghost use Rattle.core_state.specs.Arithmetic.{at_zero};
ghost use Rattle.core_state.specs.Frames.{begun, argument, arguments, first_cells};
ghost use Rattle.core_state.specs.Shared.{printed, formatted};
ghost use Rattle.core_state.specs.Messages.{message_in};
ghost use Rattle.ac_semantics.specs.Held as h;
ghost use Rattle.ac_semantics.specs.Statements as s;
ghost use Rattle.ac_semantics.specs.Work as w;
ghost use Rattle.interpreter_steps.specs.inner.Requests.{asked_or_trap};
ghost use Rattle.interpreter_steps.specs.inner.Pending.{outcome_of};
ghost use Rattle.interpreter_state.specs.State.{held_of, shared_of};
ghost use Rattle.interpreter_steps.specs.Nexts.{next_with};

use crate::pending::{Around, Evaluated, Head};
use crate::requests::{read_of, write_of};
use crate::resuming::{begin, resume};
use crate::work::{Agenda, Work};
use ac_base::{EndWord, List, NoMemory, Trap};
use ac_commands::{Action, Command, Function, Place, Resolved, Target, Value};
use interpreter_state::{Asked, Datum, Held, Memory, Span};
use std::alloc::Global;
use work_item::{BlockId, FrameId};

/// What the next step of a thread comes to, beside what the core holds and the thread has still to do afterwards.
#[derive(Drop)]
pub enum Next<'a> {
    Goes,
    /// The core has ended.
    Ends(EndWord),
    /// A thread is started with this work.
    Starts(FrameId, Agenda<'a>),
    Yields,
    /// The thread arrives at the finish of a block.
    Arrives(BlockId),
    /// The thread cancels a block, and stays at its cancel.
    Cancels(BlockId),
    /// The thread starts an operation on that link.
    Operates(u32, Asked),
    /// The thread has ended, and its frame is given back.
    Dies(FrameId),
    /// It has no meaning.
    Stays,
}

// ---- operands of a statement

/// The one so many before the last.
pub fn operand(operands: &[Datum], before: usize) -> Datum
    ensures { result ≡ slice_index_or (reverse operands.now) before no_int }
{
    if before < operands.len() {
        operands[operands.len() - 1 - before]
    } else {
        Datum::int(0)
    }
}

fn last_int(operands: &[Datum]) -> i64
    ensures { result ≡ int_in (s.last_of (reverse operands.now)) }
{
    operand(operands, 0).as_int()
}

fn last_array(operands: &[Datum]) -> Span
    ensures { result ≡ place_in (s.last_of (reverse operands.now)) }
{
    operand(operands, 0).as_array()
}

// What is sent by a statement with these operands.
fn last_message(alloc: Global, memory: &Memory, operands: &[Datum]) -> Result<List<i64>, NoMemory>
    ensures { IfOk result (λ message. message ≡ message_in memory.now (s.last_of (reverse operands.now))) }
{
    let last = operand(operands, 0);
    memory.message_in(alloc, last)
}

// The value of a `return`; without one it is 0.
fn value_or_zero(value: &Option<Value>, operands: &[Datum]) -> Datum
    ensures { result ≡ c.Int (s.value_or_zero value.now (reverse operands.now)) }
{
    match value {
        Some(_) => Datum::int(last_int(operands)),
        None => Datum::int(0),
    }
}

// A missing test is true.
fn test_or_true(test: &Option<Value>, operands: &[Datum]) -> i64
    ensures { result ≡ s.test_or_true test.now (reverse operands.now) }
{
    match test {
        Some(_) => last_int(operands),
        None => 1,
    }
}

fn some_body(body: &Option<List<Command>>) -> &[Command]
    ensures { result.now ≡ s.some_body body.now }
{
    match body {
        Some(body) => body.as_slice(),
        None => &[],
    }
}

// ---- what a statement does with its operands

fn put_variable(memory: &mut Memory, frame: FrameId, place: Place, value: i64)
    ensures { memory.new ≡ s.with_variable memory.old frame place value }
{
    match place {
        Place::Global { slot } => memory.write_global(slot, value),
        Place::Local { level, slot } => memory.write(frame, level, slot, Datum::int(value)),
    }
}

// An int, below what its place needs.
fn put(memory: &mut Memory, frame: FrameId, target: &Target, operands: &[Datum]) -> Result<(), Trap>
    ensures ok { OnOk result (s.put_in target.now (reverse operands.now) frame memory.old ≡ Ok memory.new) }
    ensures err { IfErr result (λ trap.
        (s.put_in target.now (reverse operands.now) frame memory.old ≡ Err trap) × (memory.new ≡ memory.old)) }
{
    match target {
        Target::Variable(place) => {
            put_variable(memory, frame, *place, last_int(operands));
            Ok(())
        }
        Target::Element { .. } => {
            let place = operand(operands, 1).as_array();
            let index = place.within(last_int(operands))?;
            memory.write_at(place, index, operand(operands, 2).as_int());
            Ok(())
        }
    }
}

// The call that runs in this frame gives a value, and the frame is over.
fn give_back<'a>(
    own: FrameId,
    value: Datum,
    work: &mut Agenda<'a>,
    held: &mut Held,
) -> Result<Next<'a>, NoMemory>
    ensures { IfOk result (λ n. next_with n (held_of held.new) work.new
        ≡ s.Goes (h.with_store (held_of held.old) (released held.old.memory own)) (w.given value work.old)) }
{
    held.memory.release(own);
    work.give(value)?;
    Ok(Next::Goes)
}

// The innermost call gives a value, and its frame is over.
fn return_value<'a>(
    value: Datum,
    work: &mut Agenda<'a>,
    held: &mut Held,
) -> Result<Next<'a>, NoMemory>
    requires { value ≡ c.Int (int_in value) }
    ensures { IfOk result (λ n. next_with n (held_of held.new) work.new ≡ s.returns (int_in value) work.old (held_of held.old)) }
{
    'work: while let Some(top) = work.pop() {
        match top {
            Work::Back(own) => return give_back(own, value, work, held),
            Work::Leave => return Ok(Next::Ends(EndWord::Finished)),
            _ => {}
        }
    }
    Ok(Next::Stays)
}

// A loop goes on with its body where its test is not 0.
fn do_loop<'a>(
    test: i64,
    turned: &'a Command,
    body: &'a [Command],
    frame: FrameId,
    work: &mut Agenda<'a>,
) -> Result<Next<'a>, NoMemory>
    ensures { IfOk result (λ n. (held : h.Held) → next_with n held work.new ≡ s.loops test turned.now body.now frame work.old held) }
{
    if test != 0 {
        work.push(Work::Turn(frame, turned))?;
        work.push_all(frame, body)?;
    }
    Ok(Next::Goes)
}

// Starts a thread in a frame of so many slots.
fn start<'a>(
    alloc: Global,
    slots: u32,
    body: &'a [Command],
    frame: FrameId,
    held: &mut Held,
) -> Result<Next<'a>, NoMemory>
    ensures { IfOk result (λ n. (ws : List w.Work) → next_with n (held_of held.new) ws
        ≡ s.or_trap (held_of held.old) (begun held.old.memory (Some frame) (replicate slots no_int)) (λ store.
        s.Starts (h.with_store (held_of held.old) store) (next_frame held.old.memory)
        (w.before (next_frame held.old.memory) body.now (w.End (next_frame held.old.memory) ∷ [])) ws)) }
{
    if !held.memory.has_words(u64::from(slots)) {
        return Ok(Next::Ends(EndWord::Trapped(Trap::StackFull)));
    }
    let own = held.memory.next_frame();
    let cells = vec![in alloc; Datum::int(0); slots as usize]?;
    held.memory.make(Some(frame), cells)?;
    let mut agenda = Agenda::new(alloc);
    agenda.push(Work::End(own))?;
    agenda.push_all(own, body)?;
    Ok(Next::Starts(own, agenda))
}

fn do_if<'a>(
    test: i64,
    body: &'a [Command],
    other: &'a [Command],
    frame: FrameId,
    work: &mut Agenda<'a>,
) -> Result<Next<'a>, NoMemory>
    ensures { IfOk result (λ n. (held : h.Held) → next_with n held work.new
        ≡ s.Goes held (at_zero test (w.before frame other.now work.old) (w.before frame body.now work.old))) }
{
    if test == 0 {
        work.push_all(frame, other)?;
    } else {
        work.push_all(frame, body)?;
    }
    Ok(Next::Goes)
}

// A text of the program.
fn text_of(program: &Resolved, text: u32) -> &[u8]
    ensures { result.now ≡ slice_index_or program.now.texts text [] }
{
    let texts = program.texts.as_slice();
    if (text as usize) < texts.len() {
        texts[text as usize].as_slice()
    } else {
        &[]
    }
}

fn print<'a>(
    alloc: Global,
    program: &Resolved,
    text: u32,
    operands: &[Datum],
    held: &mut Held,
) -> Result<Next<'a>, NoMemory>
    ensures { IfOk result (λ n. (ws : List w.Work) → next_with n (held_of held.new) ws
        ≡ s.or_trap (held_of held.old)
        (printed (shared_of held.old) (formatted (slice_index_or program.now.texts text []) (map int_in operands.now)))
        (λ shared. s.Goes (h.with_shared (held_of held.old) shared) ws)) }
{
    if held.print(alloc, text_of(program, text), operands)? {
        Ok(Next::Goes)
    } else {
        Ok(Next::Ends(EndWord::Trapped(Trap::OutputFull)))
    }
}

fn enter<'a>(
    slot: u32,
    body: &'a [Command],
    frame: FrameId,
    work: &mut Agenda<'a>,
    held: &mut Held,
) -> Result<Next<'a>, NoMemory>
    ensures { IfOk result (λ n. next_with n (held_of held.new) work.new
        ≡ s.Goes (h.entered (held_of held.old) frame slot)
        (w.before frame body.now (w.Close (h.next_block (held_of held.old)) ∷ work.old))) }
{
    let block = held.enter(frame, slot)?;
    work.push(Work::Close(block))?;
    work.push_all(frame, body)?;
    Ok(Next::Goes)
}

// A statement with its operands.
fn finish<'a>(
    alloc: Global,
    program: &'a Resolved,
    command: &'a Command,
    operands: &[Datum],
    frame: FrameId,
    work: &mut Agenda<'a>,
    held: &mut Held,
) -> Result<Next<'a>, NoMemory>
    ensures { IfOk result (λ n. next_with n (held_of held.new) work.new
        ≡ s.finish program.now command.now (reverse operands.now) frame work.old (held_of held.old)) }
{
    let last = last_int(operands);
    match command {
        Command::Nothing | Command::Run(_) => Ok(Next::Goes),
        Command::Set { target, .. } => match put(&mut held.memory, frame, target, operands) {
            Ok(()) => Ok(Next::Goes),
            Err(trap) => Ok(Next::Ends(EndWord::Trapped(trap))),
        },
        Command::Clear { slot, len } => {
            held.memory.clear(frame, *slot, *len);
            Ok(Next::Goes)
        }
        Command::Print { text, .. } => print(alloc, program, *text, operands, held),
        Command::If { body, other, .. } => {
            do_if(last, body.as_slice(), some_body(other), frame, work)
        }
        Command::While { body, .. } => do_loop(last, command, body.as_slice(), frame, work),
        Command::For { test, body, .. } => do_loop(
            test_or_true(test, operands),
            command,
            body.as_slice(),
            frame,
            work,
        ),
        Command::Break => {
            work.leave_loop();
            Ok(Next::Goes)
        }
        Command::Continue => {
            work.turn_loop()?;
            Ok(Next::Goes)
        }
        Command::Return(value) => return_value(value_or_zero(value, operands), work, held),
        Command::Do { slot, body } => enter(*slot, body.as_slice(), frame, work, held),
        Command::Async { slots, body } => start(alloc, *slots, body.as_slice(), frame, held),
        Command::Cancel { level, slot } => {
            work.push(Work::CallOff(frame, *level, *slot))?;
            Ok(Next::Goes)
        }
        Command::Yield => Ok(Next::Yields),
    }
}

// ---- calls

// What the slot of a parameter holds of an operand.
fn argument(is_array: bool, operand: Datum) -> Datum
    ensures { result ≡ argument is_array operand }
{
    if is_array {
        Datum::array(operand.as_array())
    } else {
        Datum::int(operand.as_int())
    }
}

// Each operand in the slot of its parameter, and 0 in the slots that no parameter has.
fn cells_of_call(
    alloc: Global,
    params: &[bool],
    slots: u32,
    operands: &[Datum],
) -> Result<Vec<Datum>, NoMemory>
    ensures { IfOk result (λ cells. cells.items ≡ first_cells (arguments params.now operands.now) slots) }
{
    let count = params.len().min(operands.len());
    let mut cells = Vec::new(alloc);
    for index in 0..count {
        cells.push(argument(params[index], operands[index]))?;
    }
    let count = cells.as_slice().len().max(slots as usize);
    cells.resize(count, Datum::int(0))?;
    Ok(cells)
}

// How many cells these are.
fn count_of_call(params: &[bool], slots: u32, operands: &[Datum]) -> u64
    ensures { result ≡ length (first_cells (arguments params.now operands.now) slots) }
{
    let count = params.len().min(operands.len()) as u64;
    count.max(u64::from(slots))
}

// A function of the program, where it is there.
fn function_at(program: &Resolved, function: u32) -> Option<&Function>
    ensures { MatchOption result (slice_get program.now.functions function ≡ None)
        (λ f. slice_get program.now.functions function ≡ Some f.now) }
{
    let functions = program.functions.as_slice();
    if (function as usize) < functions.len() {
        Some(&functions[function as usize])
    } else {
        None
    }
}

// Calls a function with operands.
fn call<'a>(
    alloc: Global,
    entered: &'a Function,
    operands: &[Datum],
    work: &mut Agenda<'a>,
    held: &mut Held,
) -> Result<Next<'a>, NoMemory>
    ensures { IfOk result (λ n. next_with n (held_of held.new) work.new
        ≡ s.calls (Some entered.now) (reverse operands.now) work.old (held_of held.old)) }
{
    let params = entered.params.as_slice();
    let count = count_of_call(params, entered.slots, operands);
    if !held.memory.has_words(count) {
        return Ok(Next::Ends(EndWord::Trapped(Trap::StackFull)));
    }
    let cells = cells_of_call(alloc, params, entered.slots, operands)?;
    let own = held.memory.next_frame();
    held.memory.make(None, cells)?;
    work.push(Work::Back(own))?;
    work.push_all(own, entered.body.as_slice())?;
    Ok(Next::Goes)
}

// ---- requests

// A request starts on the core's own link, where its range is right.
fn request<'a>(asked: Result<Asked, Trap>, held: &Held) -> Next<'a>
    ensures { (ws : List w.Work) → next_with result (held_of held.now) ws ≡ s.requests (asked_or_trap asked) ws (held_of held.now) }
{
    match asked {
        Ok(asked) => Next::Operates(held.requests, asked),
        Err(trap) => Next::Ends(EndWord::Trapped(trap)),
    }
}

// ---- statements

// A statement goes on with what its operands come to.
fn settle<'a>(
    alloc: Global,
    program: &'a Resolved,
    command: &'a Command,
    frame: FrameId,
    outcome: Evaluated,
    around: Around<'a>,
    work: &mut Agenda<'a>,
    held: &mut Held,
) -> Result<Next<'a>, NoMemory>
    ensures { IfOk result (λ n. next_with n (held_of held.new) work.new
        ≡ s.settles program.now command.now frame work.old (held_of held.old) (outcome_of outcome around.entry)) }
{
    match outcome {
        Evaluated::Comes(_) => Ok(Next::Stays),
        Evaluated::Traps(trap) => Ok(Next::Ends(EndWord::Trapped(trap))),
        Evaluated::Stops(Head::Ending, operands) => finish(
            alloc,
            program,
            command,
            operands.as_slice(),
            frame,
            work,
            held,
        ),
        Evaluated::Stops(Head::Acting(Action::Call { function }), operands) => {
            work.push(Work::Pend(frame, command, around))?;
            match function_at(program, function) {
                Some(entered) => call(alloc, entered, operands.as_slice(), work, held),
                None => Ok(Next::Stays),
            }
        }
        Evaluated::Stops(Head::Acting(Action::Send { channel }), operands) => {
            work.push(Work::Pend(frame, command, around))?;
            let message = last_message(alloc, &held.memory, operands.as_slice())?;
            Ok(Next::Operates(channel, Asked::Send(message)))
        }
        Evaluated::Stops(Head::Acting(Action::Recv { channel }), operands) => {
            work.push(Work::Pend(frame, command, around))?;
            let place = last_array(operands.as_slice());
            Ok(Next::Operates(channel, Asked::Recv(place)))
        }
        Evaluated::Stops(Head::Acting(Action::Read { file }), operands) => {
            work.push(Work::Pend(frame, command, around))?;
            Ok(request(read_of(file, operands.as_slice()), held))
        }
        Evaluated::Stops(Head::Acting(Action::Write { file }), operands) => {
            work.push(Work::Pend(frame, command, around))?;
            let asked = write_of(alloc, &held.memory, file, operands.as_slice())?;
            Ok(request(asked, held))
        }
    }
}

// A statement, whose step is used.
fn begin_statement<'a>(
    alloc: Global,
    program: &'a Resolved,
    command: &'a Command,
    frame: FrameId,
    work: &mut Agenda<'a>,
    held: &mut Held,
) -> Result<Next<'a>, NoMemory>
    ensures { IfOk result (λ n. next_with n (held_of held.new) work.new
        ≡ s.does program.now command.now frame work.old (held_of held.old)) }
{
    let mut around = Around::new(alloc);
    let outcome = begin(alloc, &held.memory, frame, command, &mut around)?;
    settle(alloc, program, command, frame, outcome, around, work, held)
}

/// What the next step of a thread comes to.
pub fn next_step<'a>(
    alloc: Global,
    program: &'a Resolved,
    bound: u64,
    work: &mut Agenda<'a>,
    held: &mut Held,
) -> Result<Next<'a>, NoMemory>
    ensures { IfOk result (λ n. next_with n (held_of held.new) work.new
        ≡ s.next_of program.now bound work.old (held_of held.old)) }
{
    work.go_ahead()?;
    let Some(next) = work.pop() else {
        return Ok(Next::Stays);
    };
    match next {
        Work::Turn(..) | Work::Pend(..) => Ok(Next::Stays),
        Work::Do(frame, command) => {
            if !held.step(bound) {
                return Ok(Next::Ends(EndWord::OutOfSteps));
            }
            begin_statement(alloc, program, command, frame, work, held)
        }
        Work::CallOff(frame, level, slot) => {
            let block = held.memory.read(frame, level, slot).as_block();
            work.push(Work::CallOff(frame, level, slot))?;
            Ok(Next::Cancels(block))
        }
        Work::Close(block) => {
            if !held.step(bound) {
                return Ok(Next::Ends(EndWord::OutOfSteps));
            }
            Ok(Next::Arrives(block))
        }
        Work::Back(own) => give_back(own, Datum::int(0), work, held),
        Work::Given(value, frame, command, mut around) => {
            let outcome = resume(alloc, &held.memory, frame, value, &mut around)?;
            settle(alloc, program, command, frame, outcome, around, work, held)
        }
        Work::Leave => Ok(Next::Ends(EndWord::Finished)),
        Work::End(frame) => Ok(Next::Dies(frame)),
    }
}
