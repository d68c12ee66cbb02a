//! Checked programs.

ghost use Rattle.std.specs.Prelude.{◌≡◌, ◌<◌, length, slice_get, pos, Some, IfOk, IfErr, true};
ghost use Rattle.ac_tree.specs.Shape.{HasShape};
ghost use Rattle.ac_tree.specs.Weight.{IsSmall};
ghost use Rattle.ac_types.specs.Items.{channel_width};
ghost use Rattle.ac_types.specs.Reached.{BreaksNone, Reaches, all_calls};
ghost use Rattle.ac_types.specs.Verdicts.{IsFault};
ghost use Rattle.ac_names.specs.Numbered.{core_names, capacities, file_paths};

use crate::fault::CheckFault;
use crate::verdict::{Verdict, judge};
use ac_base::{Bytes, List, Name};
use ac_names::{Counts, capacity_size, find_capacity, find_core, find_path};
use ac_tree::Program;
use std::alloc::Global;
use std::marker::Model;

/// A program that breaks no rule, for which numbers of 32 bits suffice.
///
/// Contracts see its tree.
#[derive(Drop)]
pub struct Checked {
    program: Program,
    counts: Counts,
    // for each core whether it reaches each function
    reach: List<List<bool>>,
    // how many ints a message of each channel has
    widths: List<u32>,
}

impl Model for Checked {
    ghost use Rattle.std.specs.Prelude.{◌≡◌};
    ghost use Rattle.std.specs.Coded.{codes};
    ghost use Rattle.ac_tree.specs.contracts.expr.Expr as e;
    ghost use Rattle.ac_tree.specs.contracts.stmt.Stmt as s;
    ghost use Rattle.ac_tree.specs.declared.item.Program.{Program};
    ghost use Rattle.ac_tree.specs.Shape.{HasShape};
    ghost use Rattle.ac_tree.specs.Weight.{IsSmall};
    ghost use Rattle.ac_names.specs.Items.{whole};
    ghost use Rattle.ac_types.specs.Items.{all_widths};
    ghost use Rattle.ac_types.specs.Reached.{BreaksNone, entries_of, all_calls};
    ghost use Rattle.ac_reach.specs.Reached.{AreAll};

    ghost Value = { Program };

    ghost coded = { Prim.hlevel (codes, s.the_row.coded, e.the_row.coded) };

    ghost view = { λ c. c.program };

    ghost invariant = { λ c. (BreaksNone c.program.items × IsSmall c.program × HasShape c.program)
        × (c.counts ≡ (whole c.program.items).counts)
        × AreAll (all_calls c.program.items) (entries_of c.program.items) c.reach
        × (c.widths ≡ all_widths c.program.items) };
}

/// Checks the rules of a program. It is accepted exactly where it breaks none; else the fault is the least pair of a node, by
/// its number in preorder, and a rule that it breaks, with the node's first byte. The program is small and has the shape of a
/// program, as each is and has that at most 1,048,576 tokens spell.
pub fn check(alloc: Global, program: Program) -> Result<Checked, CheckFault>
    requires { IsSmall program × HasShape program }
    ensures tree { IfOk result (λ checked. checked ≡ program) }
    ensures clean { IfOk result (λ checked. BreaksNone program.items) }
    ensures broken { IfErr result (λ fault. IsFault program fault) }
{
    match judge(alloc, program.items.as_slice())? {
        Verdict::Broken(broken) => Err(CheckFault::Broken {
            rule: broken.rule.number(),
            at: broken.at,
        }),
        Verdict::Clean(counts, reach, widths) => Ok(Checked {
            program,
            counts,
            reach,
            widths,
        }),
    }
}

impl Checked {
    /// The tree, which breaks no rule, is small and has the shape of a program.
    pub fn tree(&self) -> &Program
        ensures tree { result.now ≡ self.now }
        ensures clean { BreaksNone self.now.items }
        ensures small { IsSmall self.now }
        ensures shaped { HasShape self.now }
    {
        &self.program
    }

    /// The number of cores.
    pub fn cores(&self) -> u32
        ensures { result ≡ length (core_names self.now.items) }
    {
        self.counts.cores
    }

    /// The number of functions.
    pub fn functions(&self) -> u32
        ensures { result ≡ length (all_calls self.now.items) }
    {
        self.counts.functions
    }

    /// The number of channels.
    pub fn channels(&self) -> u32
        ensures { result ≡ length (capacities self.now.items) }
    {
        self.counts.channels
    }

    /// The number of files.
    pub fn files(&self) -> u32
        ensures { result ≡ length (file_paths self.now.items) }
    {
        self.counts.files
    }

    /// The name of a core. There is one of that number.
    pub fn core_name(&self, core: u32) -> &Name
        requires { core < length (core_names self.now.items) }
        ensures { slice_get (core_names self.now.items) core ≡ Some result.now }
    {
        find_core(self.program.items.as_slice(), core)
    }

    /// The capacity of a channel, in messages. There is one of that number.
    pub fn capacity(&self, link: u32) -> u32
        requires { link < length (capacities self.now.items) }
        ensures { slice_get (capacities self.now.items) link ≡ Some (pos result) }
    {
        capacity_size(find_capacity(self.program.items.as_slice(), link))
    }

    /// How many ints a message of a channel has. There is one of that number.
    pub fn width(&self, link: u32) -> u32
        requires { link < length (capacities self.now.items) }
        ensures { result ≡ channel_width self.now.items link }
    {
        *self.widths.get(u64::from(link))
    }

    /// The path of a file. There is one of that number.
    pub fn path(&self, file: u32) -> &Bytes
        requires { file < length (file_paths self.now.items) }
        ensures { slice_get (file_paths self.now.items) file ≡ Some result.now }
    {
        find_path(self.program.items.as_slice(), file)
    }

    /// Whether a core reaches a function: it enters the function, or reaches one that calls it. There are a core and a function of
    /// these numbers.
    pub fn reaches(&self, core: u32, function: u32) -> bool
        requires core { core < length (core_names self.now.items) }
        requires function { function < length (all_calls self.now.items) }
        ensures sound { result ≡ true → Reaches self.now.items core function }
        ensures whole { Reaches self.now.items core function → result ≡ true }
    {
        *self.reach.get(u64::from(core)).get(u64::from(function))
    }
}
