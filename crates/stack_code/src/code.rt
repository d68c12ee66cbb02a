//! A whole code.

ghost use Rattle.std.specs.Prelude.{◌≡◌, ◌<◌, length, slice_get, IfOk, IfSome, IfNone, Some};
ghost use Rattle.stack_code.specs.Parts.{Begins};
ghost use Rattle.stack_code.specs.Valid.{IsValid};
ghost use Rattle.stack_code.specs.Kept.{IsKept, IsTable, IsRanked};

use crate::instr::Instr;
use crate::lists::has_lists;
use crate::parts::{ChannelEnds, Entered, Start};
use crate::shape::Shape;
use crate::sketch::Sketch;
use crate::uses::has_one_use;
use crate::ways::quiet_ranks;
use crate::work::shapes;
use ac_base::{Bytes, List, Name, NoMemory};
use std::alloc::Global;
use std::marker::Model;

/// A code that is valid: a machine that runs it never leaves it, never lacks an operand or a slot,
/// and takes a step from time to time.
///
/// Contracts see its parts.
#[derive(Debug, Drop)]
pub struct Code {
    sketch: Sketch,
    table: Vec<Option<Shape>>,
    ranks: List<u64>,
}

impl Model for Code {
    ghost use Rattle.stack_code.specs.Parts.{Parts};
    ghost use Rattle.stack_code.specs.Kept.{IsKept};

    ghost Value = { Parts };

    ghost view = { λ c. c.sketch };

    ghost invariant = { λ c. IsKept c.sketch c.table.items c.ranks };
}

// What is kept of a code beside its parts: by address the shapes and the ranks.
#[derive(Drop)]
struct Kept {
    table: Vec<Option<Shape>>,
    ranks: List<u64>,
}

// What is kept of these parts, and none exactly where they are not valid.
fn kept_of(alloc: Global, sketch: &Sketch) -> Result<Option<Kept>, NoMemory>
    ensures some { IfOk result (λ made. IfSome made (λ kept. IsKept sketch.now kept.table.items kept.ranks)) }
    ensures none { IfOk result (λ made. IfNone made (IsValid sketch.now → ⊥)) }
{
    if !has_lists(sketch) {
        return Ok(None);
    }
    let Some(table) = shapes(alloc, sketch)? else {
        return Ok(None);
    };
    if !has_one_use(alloc, sketch, table.as_slice())? {
        return Ok(None);
    }
    let Some(ranks) = quiet_ranks(alloc, sketch, table.as_slice())? else {
        return Ok(None);
    };
    Ok(Some(Kept { table, ranks }))
}

fn code_of(alloc: Global, sketch: Sketch) -> Result<Option<Code>, NoMemory>
    ensures same { IfOk result (λ made. IfSome made (λ code. code ≡ sketch)) }
    ensures valid { IfOk result (λ made. IfSome made (λ code. IsValid sketch)) }
    ensures none { IfOk result (λ made. IfNone made (IsValid sketch → ⊥)) }
{
    let Some(Kept { table, ranks }) = kept_of(alloc, &sketch)? else {
        return Ok(None);
    };
    Ok(Some(Code {
        sketch,
        table,
        ranks,
    }))
}

impl Code {
    /// The code of these parts: its instructions; its functions; the texts of its `Print`
    /// instructions; the function that each core enters, and the names of the cores; how many slots
    /// the globals have; the capacity of each link, first those of the channels and then one for each
    /// core; the two cores of each channel; the globals that start with something else than 0; and how
    /// many ints a message of each channel has. None exactly where these are not valid.
    ///
    /// It takes time in proportion to the instructions and to the sizes of the shapes at them; only
    /// the slots that hold no int are sorted.
    pub fn make(
        alloc: Global,
        instrs: List<Instr>,
        functions: List<Entered>,
        texts: List<Bytes>,
        entries: List<u32>,
        names: List<Name>,
        globals: u32,
        capacities: List<u32>,
        ends: List<ChannelEnds>,
        starts: List<Start>,
        widths: List<u32>,
    ) -> Result<Option<Code>, NoMemory>
        ensures same { IfOk result (λ made. IfSome made
            (λ code. code ≡ record {
              instrs = instrs;
              functions = functions;
              texts = texts;
              entries = entries;
              names = names;
              globals = globals;
              capacities = capacities;
              ends = ends;
              starts = starts;
              widths = widths;
            })) }
        ensures valid { IfOk result (λ made. IfSome made
            (λ code. IsValid (record {
              instrs = instrs;
              functions = functions;
              texts = texts;
              entries = entries;
              names = names;
              globals = globals;
              capacities = capacities;
              ends = ends;
              starts = starts;
              widths = widths;
            }))) }
        ensures none { IfOk result (λ made. IfNone made
            (IsValid (record {
              instrs = instrs;
              functions = functions;
              texts = texts;
              entries = entries;
              names = names;
              globals = globals;
              capacities = capacities;
              ends = ends;
              starts = starts;
              widths = widths;
            }) → ⊥)) }
    {
        let sketch = Sketch::new(
            alloc, instrs, functions, texts, entries, names, globals, capacities, ends, starts,
            widths,
        )?;
        code_of(alloc, sketch)
    }

    /// The instructions by address.
    pub fn instrs(&self) -> &[Instr]
        ensures same { result.now ≡ self.now.instrs }
        ensures valid { IsValid self.now }
    {
        self.sketch.instrs()
    }

    /// The functions by number.
    pub fn functions(&self) -> &[Entered]
        ensures { result.now ≡ self.now.functions }
    {
        self.sketch.functions()
    }

    /// The texts by number.
    pub fn texts(&self) -> &[Bytes]
        ensures { result.now ≡ self.now.texts }
    {
        self.sketch.texts()
    }

    /// The function that each core enters.
    pub fn entries(&self) -> &[u32]
        ensures { result.now ≡ self.now.entries }
    {
        self.sketch.entries()
    }

    /// The names of the cores.
    pub fn names(&self) -> &List<Name>
        ensures { result.now ≡ self.now.names }
    {
        self.sketch.names()
    }

    /// The function with which a core begins.
    pub fn begin(&self, core: u32) -> &Entered
        requires { core < length self.now.entries }
        ensures { Begins self.now core result.now }
    {
        let entry = entry_of(self.sketch.entries(), core);
        function_of(self.sketch.functions(), entry)
    }

    /// How many slots the globals have.
    pub fn globals(&self) -> u32
        ensures { result ≡ self.now.globals }
    {
        self.sketch.globals()
    }

    /// The capacity of each link: first those of the channels, and then one for each core.
    pub fn capacities(&self) -> &List<u32>
        ensures { result.now ≡ self.now.capacities }
    {
        self.sketch.capacities()
    }

    /// How many ints a message of each channel has.
    pub fn widths(&self) -> &List<u32>
        ensures { result.now ≡ self.now.widths }
    {
        self.sketch.widths()
    }

    /// The two cores of each channel.
    pub fn ends(&self) -> &[ChannelEnds]
        ensures { result.now ≡ self.now.ends }
    {
        self.sketch.ends()
    }

    /// The globals that start with something else than 0, from the lowest slot upwards.
    pub fn starts(&self) -> &[Start]
        ensures same { result.now ≡ self.now.starts }
        ensures valid { IsValid self.now }
    {
        self.sketch.starts()
    }

    /// By address, its shape where it is reached.
    pub fn shapes(&self) -> &[Option<Shape>]
        ensures { IsTable self.now result.now }
    {
        self.table.as_slice()
    }

    /// By address, a rank: it falls wherever the code goes on without a `Step`.
    pub fn ranks(&self) -> &[u64]
        ensures { IsRanked self.now result.now }
    {
        self.ranks.as_slice()
    }
}

fn entry_of(entries: &[u32], core: u32) -> u32
    requires { core < length entries.now }
    ensures { slice_get entries.now core ≡ Some result }
{
    entries[core as usize]
}

fn function_of(functions: &[Entered], entry: u32) -> &Entered
    requires { entry < length functions.now }
    ensures { slice_get functions.now entry ≡ Some result.now }
{
    &functions[entry as usize]
}
