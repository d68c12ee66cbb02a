//! The code of a whole program, part by part.

ghost use Rattle.std.specs.Prelude.{◌≡◌, ◌+◌, ◌<◌, ◌^◌, [], ◌++◌, length, map, replicate, OnOk, IfOk};
ghost use Rattle.ac_translation.specs.Translation.{function_code, functions_code, functions_from};
ghost use Rattle.ac_translation.specs.Translation.{request_capacity, ends_of, start_of, code_of};
ghost use Rattle.ac_compile.specs.inner.Emission.{with_code, HasRoom};
ghost use Rattle.ac_compile.specs.inner.Made.{parts_of, HasRanks};
ghost use Rattle.ac_resolve.specs.InPlace.{IsInPlace};

use crate::emit::commands::emit_body;
use crate::emit::emitter::Emitter;
use ac_base::{Bytes, List, Name, NoMemory};
use ac_commands::{Channel, Core, Function, Resolved};
use stack_code::{ChannelEnds, Code, Entered, Instr, Start};
use std::alloc::Global;

// A core's link of requests holds so many.
const REQUEST_CAPACITY: u32 = 16;

/// The parts of a code.
#[derive(Drop)]
pub struct Whole {
    pub instrs: List<Instr>,
    pub functions: List<Entered>,
    pub texts: List<Bytes>,
    /// The function that each core enters.
    pub entries: List<u32>,
    /// The names of the cores.
    pub names: List<Name>,
    /// How many slots the globals have.
    pub globals: u32,
    /// Of the link of each channel, and then of each core's link of requests.
    pub capacities: List<u32>,
    /// The two cores of each channel.
    pub ends: List<ChannelEnds>,
    /// The globals that start with something else than 0.
    pub starts: List<Start>,
    /// How many ints a message of each channel has.
    pub widths: List<u32>,
}

// The code of a function, which gives 0 at its end.
fn emit_function(alloc: Global, emitter: &mut Emitter, function: &Function) -> Result<(), NoMemory>
    requires { HasRoom (function_code function.now) emitter.old }
    ensures { OnOk result (emitter.new ≡ with_code (function_code function.now) emitter.old) }
{
    emit_body(alloc, emitter, function.body.as_slice())?;
    emitter.put(Instr::Push(0))?;
    emitter.put(Instr::Ret)?;
    Ok(())
}

fn entered_at(alloc: Global, function: &Function, at: u32) -> Result<Entered, NoMemory>
    ensures { IfOk result (λ entered. entered ≡ record {
      name = function.now.name;
      at = at;
      params = function.now.params;
      words = function.now.slots;
    }) }
{
    let name = function.name.copy(alloc)?;
    let params = function.params.copy(alloc)?;
    Ok(Entered {
        name,
        at,
        params,
        words: function.slots,
    })
}

// The code of functions, one after the other, and where each begins.
fn emit_functions(
    alloc: Global,
    emitter: &mut Emitter,
    functions: &[Function],
) -> Result<List<Entered>, NoMemory>
    requires { HasRoom (functions_code functions.now) emitter.old }
    ensures code { OnOk result (emitter.new ≡ with_code (functions_code functions.now) emitter.old) }
    ensures list { IfOk result (λ list. list ≡ functions_from (length emitter.old.instrs) functions.now) }
{
    let mut list = List::new(alloc);
    for function in functions {
        let at = emitter.len();
        list.push(entered_at(alloc, function, at)?)?;
        emit_function(alloc, emitter, function)?;
    }
    Ok(list)
}

fn copied(alloc: Global, texts: &[Bytes]) -> Result<List<Bytes>, NoMemory>
    ensures { IfOk result (λ list. list ≡ texts.now) }
{
    let mut list = List::new(alloc);
    for text in texts {
        list.push(text.copy(alloc)?)?;
    }
    Ok(list)
}

fn names_of(alloc: Global, cores: &[Core]) -> Result<List<Name>, NoMemory>
    ensures { IfOk result (λ list. list ≡ map (λ core. core.name) cores.now) }
{
    let mut list = List::new(alloc);
    for core in cores {
        list.push(core.name.copy(alloc)?)?;
    }
    Ok(list)
}

fn entries_of(alloc: Global, cores: &[Core]) -> Result<List<u32>, NoMemory>
    ensures { IfOk result (λ list. list ≡ map (λ core. core.entry) cores.now) }
{
    let entries = cores.iter().map(|core| core.entry).collect(alloc)?;
    Ok(List::from_vec(entries))
}

fn ends_of(alloc: Global, channels: &[Channel]) -> Result<List<ChannelEnds>, NoMemory>
    ensures { IfOk result (λ list. list ≡ map ends_of channels.now) }
{
    let mut list = List::new(alloc);
    for channel in channels {
        list.push(ChannelEnds {
            from: channel.from,
            to: channel.to,
        })?;
    }
    Ok(list)
}

fn starts_of(alloc: Global, starts: &[ac_commands::Start]) -> Result<List<Start>, NoMemory>
    ensures { IfOk result (λ list. list ≡ map start_of starts.now) }
{
    let mut list = List::new(alloc);
    for start in starts {
        list.push(Start {
            slot: start.slot,
            value: start.value,
        })?;
    }
    Ok(list)
}

fn add_requests(capacities: &mut Vec<u32>, count: u64) -> Result<(), NoMemory>
    ensures { OnOk result (capacities.new.items ≡ capacities.old.items ++ replicate count request_capacity) }
{
    for _made in 0..count {
        capacities.push(REQUEST_CAPACITY)?;
    }
    Ok(())
}

fn capacities_of(
    alloc: Global,
    channels: &[Channel],
    cores: &List<Core>,
) -> Result<List<u32>, NoMemory>
    ensures { IfOk result (λ list. list ≡ map (λ channel. channel.capacity) channels.now ++ replicate (length cores.now) request_capacity) }
{
    let mut capacities: Vec<u32> = channels
        .iter()
        .map(|channel| channel.capacity)
        .collect(alloc)?;
    add_requests(&mut capacities, cores.len())?;
    Ok(List::from_vec(capacities))
}

fn widths_of(alloc: Global, channels: &[Channel]) -> Result<List<u32>, NoMemory>
    ensures { IfOk result (λ list. list ≡ map (λ channel. channel.width) channels.now) }
{
    let widths = channels.iter().map(|channel| channel.width).collect(alloc)?;
    Ok(List::from_vec(widths))
}

/// The parts of the code of a program, whose addresses are numbers of 32 bits.
pub fn whole_code(alloc: Global, program: &Resolved) -> Result<Whole, NoMemory>
    requires { (functions_code program.now.functions).size < 2 ^ 32 }
    ensures { IfOk result (λ whole. parts_of whole ≡ code_of program.now) }
{
    let mut emitter = Emitter::new(alloc);
    let functions = emit_functions(alloc, &mut emitter, program.functions.as_slice())?;
    let instrs = List::from_vec(emitter.into_instrs());
    let texts = copied(alloc, program.texts.as_slice())?;
    let entries = entries_of(alloc, program.cores.as_slice())?;
    let names = names_of(alloc, program.cores.as_slice())?;
    let capacities = capacities_of(alloc, program.channels.as_slice(), &program.cores)?;
    let ends = ends_of(alloc, program.channels.as_slice())?;
    let starts = starts_of(alloc, program.starts.as_slice())?;
    let widths = widths_of(alloc, program.channels.as_slice())?;
    Ok(Whole {
        instrs,
        functions,
        texts,
        entries,
        names,
        globals: program.slots,
        capacities,
        ends,
        starts,
        widths,
    })
}

/// The code of a program in which everything is in its place. Such a code is valid.
pub fn program_code(alloc: Global, program: &Resolved) -> Result<Code, NoMemory>
    requires in_place { IsInPlace program.now }
    requires short { (functions_code program.now.functions).size < 2 ^ 32 }
    requires few { length program.now.channels + length program.now.cores < 2 ^ 32 }
    ensures same { IfOk result (λ code. code ≡ code_of program.now) }
    ensures ranked { IfOk result HasRanks }
{
    let whole = whole_code(alloc, program)?;
    let made = Code::make(
        alloc,
        whole.instrs,
        whole.functions,
        whole.texts,
        whole.entries,
        whole.names,
        whole.globals,
        whole.capacities,
        whole.ends,
        whole.starts,
        whole.widths,
    )?;
    match made {
        Some(code) => {
            // Its ranks show that it comes to an end.
            let _ = code.ranks();
            Ok(code)
        }
        None => unreachable!(),
    }
}
