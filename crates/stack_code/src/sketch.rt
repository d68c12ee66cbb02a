//! The parts of a code, valid or not.

ghost use Rattle.std.specs.Prelude.{◌≡◌, length, slice_get, IfOk, option_copied, option_map};
ghost use Rattle.stack_code.specs.Shapes.{channels_of, width_of, directives_in, params_of, is_array};

use crate::instr::Instr;
use crate::parts::{ChannelEnds, Entered, Start};
use crate::shape::Home;
use crate::texts::Texts;
use ac_base::{Bytes, List, Name, NoMemory};
use std::alloc::Global;
use std::marker::Model;

/// The parts of a code.
///
/// Contracts see the parts.
#[derive(Debug, Drop)]
pub struct Sketch {
    pub instrs: List<Instr>,
    pub functions: List<Entered>,
    pub texts: Texts,
    pub entries: List<u32>,
    pub names: List<Name>,
    pub globals: u32,
    pub capacities: List<u32>,
    pub ends: List<ChannelEnds>,
    pub starts: List<Start>,
    pub widths: List<u32>,
}

impl Model for Sketch {
    ghost use Rattle.stack_code.specs.Parts.{Parts};

    ghost Value = { Parts };

    ghost view = { λ c. record {
      instrs = c.instrs;
      functions = c.functions;
      texts = c.texts;
      entries = c.entries;
      names = c.names;
      globals = c.globals;
      capacities = c.capacities;
      ends = c.ends;
      starts = c.starts;
      widths = c.widths;
    } };
}

impl Sketch {
    /// The sketch of these parts.
    pub fn new(
        alloc: Global,
        instrs: List<Instr>,
        functions: List<Entered>,
        texts: List<Bytes>,
        entries: List<u32>,
        names: List<Name>,
        globals: u32,
        capacities: List<u32>,
        ends: List<ChannelEnds>,
        starts: List<Start>,
        widths: List<u32>,
    ) -> Result<Sketch, NoMemory>
        ensures { IfOk result (λ it. it ≡ record {
          instrs = instrs;
          functions = functions;
          texts = texts;
          entries = entries;
          names = names;
          globals = globals;
          capacities = capacities;
          ends = ends;
          starts = starts;
          widths = widths;
        }) }
    {
        Ok(Sketch {
            instrs,
            functions,
            texts: Texts::new(alloc, texts)?,
            entries,
            names,
            globals,
            capacities,
            ends,
            starts,
            widths,
        })
    }

    /// The number of instructions.
    pub fn len(&self) -> usize
        ensures { result ≡ length self.now.instrs }
    {
        self.instrs.as_slice().len()
    }

    /// The function that each core enters.
    pub fn entries(&self) -> &[u32]
        ensures { result.now ≡ self.now.entries }
    {
        self.entries.as_slice()
    }

    /// The instructions by address.
    pub fn instrs(&self) -> &[Instr]
        ensures { result.now ≡ self.now.instrs }
    {
        self.instrs.as_slice()
    }

    /// The texts by number.
    pub fn texts(&self) -> &[Bytes]
        ensures { result.now ≡ self.now.texts }
    {
        self.texts.as_slice()
    }

    /// The names of the cores.
    pub fn names(&self) -> &List<Name>
        ensures { result.now ≡ self.now.names }
    {
        &self.names
    }

    /// The capacity of each link.
    pub fn capacities(&self) -> &List<u32>
        ensures { result.now ≡ self.now.capacities }
    {
        &self.capacities
    }

    /// The two cores of each channel.
    pub fn ends(&self) -> &[ChannelEnds]
        ensures { result.now ≡ self.now.ends }
    {
        self.ends.as_slice()
    }

    /// The globals that start with something else than 0.
    pub fn starts(&self) -> &[Start]
        ensures { result.now ≡ self.now.starts }
    {
        self.starts.as_slice()
    }

    /// The instruction at an address.
    pub fn instr(&self, at: u32) -> Option<Instr>
        ensures { result ≡ slice_get self.now.instrs at }
    {
        self.instrs.as_slice().get(at as usize).copied()
    }

    /// The functions.
    pub fn functions(&self) -> &[Entered]
        ensures { result.now ≡ self.now.functions }
    {
        self.functions.as_slice()
    }

    /// The function with that number.
    pub fn function(&self, number: u32) -> Option<&Entered>
        ensures { option_copied result ≡ slice_get self.now.functions number }
    {
        self.functions.as_slice().get(number as usize)
    }

    /// The number of directives of a text.
    pub fn directives(&self, text: u32) -> Option<u64>
        ensures { result ≡ option_map directives_in (slice_get self.now.texts text) }
    {
        self.texts.directives(text)
    }

    /// The number of slots of the globals.
    pub fn globals(&self) -> u32
        ensures { result ≡ self.now.globals }
    {
        self.globals
    }

    /// The number of channels.
    pub fn channels(&self) -> u64
        ensures { result ≡ channels_of self.now }
    {
        self.capacities.len().saturating_sub(self.entries.len())
    }

    /// How many ints a message of the channel has; 0 where there is no such channel.
    pub fn width(&self, channel: u32) -> u32
        ensures { result ≡ width_of self.now channel }
    {
        match self.widths.as_slice().get(channel as usize) {
            Some(width) => *width,
            None => 0,
        }
    }

    /// How many ints a message of each channel has.
    pub fn widths(&self) -> &List<u32>
        ensures { result.now ≡ self.now.widths }
    {
        &self.widths
    }

    /// Whether the parameter in that slot of that body's frame is an array; None where it is no
    /// parameter.
    pub fn param(&self, home: Home, slot: u32) -> Option<bool>
        ensures { result ≡ slice_get (params_of self.now home) slot }
    {
        match home {
            Home::Function { number } => match self.function(number) {
                Some(function) => function.params.as_slice().get(slot as usize).copied(),
                None => None,
            },
            Home::Async { .. } => None,
        }
    }

    /// Whether the slot of that body's frame is an array parameter.
    pub fn is_array(&self, home: Home, slot: u32) -> bool
        ensures { result ≡ is_array self.now home slot }
    {
        self.param(home, slot).unwrap_or(false)
    }
}
