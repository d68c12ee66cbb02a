//! The entries of a run in their causal order.

use crate::cut::{CutAnswer, lesser};
use crate::order::Order;
use crate::vectors::Vectors;
use ac_base::{CoreEnd, List, NoMemory};
use stack_code::Code;
use std::alloc::Global;
use std::marker::Model;
use trace_text::Trace;

/// The entries of a run in their causal order: which of them came before which, whatever the schedule
/// was.
///
/// Contracts see the code, the bound on steps, the entries, and how many parties there are.
#[derive(Drop)]
pub struct Causal<'a> {
    vectors: Vectors<'a>,
}

impl<'a> Model for Causal<'a> {
    ghost use Rattle.ac_causal.specs.Run.{CausalRun};

    ghost Value = { CausalRun };

    ghost view = { λ c. c.vectors };
}

impl<'a> Causal<'a> {
    ghost use Rattle.std.specs.Prelude.{◌≡◌, suc, ◌<◌, ◌^◌, ◌↔◌, length, IfOk, IsTrue};
    ghost use Rattle.ac_causal.specs.Before.{IsOrder, IsVector};
    ghost use Rattle.ac_commands.specs.declared.program.Resolved.{Resolved};
    ghost use Rattle.ac_translation.specs.Translation.{code_of};
    ghost use Rattle.ac_translation.specs.Same.{IsSame};
    ghost use Rattle.ac_causal.specs.Cuts.{IsCut, IsClosed, IsCutAnswer};
    ghost use Rattle.ac_causal.specs.Run.{IsAudited};
    ghost use Rattle.ac_causal.specs.States.{AreStates};

    /// The entries of a trace, of a program that has this code.
    ///
    /// Conditions: an audit of the trace says yes; and they are fewer than 2^32.
    pub fn new(alloc: Global, code: &'a Code, trace: &'a Trace) -> Result<Causal<'a>, NoMemory>
        requires audited { IsAudited code.now trace.now }
        requires few { length trace.now.entries < 2 ^ 32 }
        ensures code { IfOk result (λ it. it.code ≡ code.now) }
        ensures steps { IfOk result (λ it. it.steps ≡ trace.now.steps) }
        ensures entries { IfOk result (λ it. it.entries ≡ trace.now.entries) }
        ensures parties { IfOk result (λ it. it.parties ≡ suc (length code.now.entries)) }
    {
        let vectors = Vectors::new(alloc, code, trace)?;
        Ok(Causal { vectors })
    }

    /// How many entries there are.
    pub fn len(&self) -> u64
        ensures { result ≡ length self.now.entries }
    {
        self.vectors.len()
    }

    /// For each party how many of its entries are this one or came before it.
    pub fn vector(&self, alloc: Global, entry: u64) -> Result<List<u32>, NoMemory>
        requires { entry < length self.now.entries }
        ensures { IfOk result (λ it. IsVector self.now.entries self.now.parties entry it) }
    {
        self.vectors.vector(alloc, entry)
    }

    /// How one entry stands to the other. It takes no memory, and goes over no entries.
    pub fn order(&self, one: u64, other: u64) -> Order
        requires one { one < length self.now.entries }
        requires other { other < length self.now.entries }
        ensures { IsOrder self.now.entries one other result }
    {
        if one == other {
            Order::Same
        } else if self.vectors.reaches(one, other) {
            Order::Before
        } else if self.vectors.reaches(other, one) {
            Order::After
        } else {
            Order::Concurrent
        }
    }

    /// Whether the counts are a cut: one for each party, of no more entries than it has. It takes no
    /// memory.
    pub fn is_cut(&self, counts: &List<u32>) -> bool
        ensures { IsTrue result ↔ IsCut self.now.entries self.now.parties counts.now }
    {
        self.vectors.is_cut(counts.as_slice())
    }

    /// Whether what each entry of a cut answers is in the cut, too, or the first entry that is not.
    /// It takes no memory.
    ///
    /// Condition: they are a cut: a count for each party, of no more entries than it has.
    pub fn cut(&self, counts: &List<u32>) -> CutAnswer
        requires { IsCut self.now.entries self.now.parties counts.now }
        ensures { IsCutAnswer self.now.entries counts.now result }
    {
        let vectors = &self.vectors;
        let counts = counts.as_slice();
        let mut least = 0;
        for entry in 0..vectors.len() {
            least = lesser(least, vectors.open_mark(counts, entry));
        }
        if least == 0 {
            CutAnswer::Closed
        } else {
            CutAnswer::Open {
                entry: u64::from(least - 1),
            }
        }
    }

    /// How each core ends under its entries of a closed cut, by the program whose run it is.
    pub fn states(&self, alloc: Global, counts: &List<u32>) -> Result<List<CoreEnd>, NoMemory>
        requires cut { IsCut self.now.entries self.now.parties counts.now }
        requires closed { IsClosed self.now.entries counts.now }
        ensures { IfOk result (λ ends. (program : Resolved) → self.now.code ≡ code_of program → IsSame self.now.code program
            → AreStates program self.now.steps self.now.entries counts.now ends) }
    {
        self.vectors.states(alloc, counts.as_slice())
    }
}
