//! The entries of a run with the table of their vectors.

use crate::cut::is_cut;
use crate::states::states_of;
use crate::table::{Rows, count_at, rows_of};
use ac_base::{CoreEnd, List, NoMemory};
use stack_code::Code;
use std::alloc::Global;
use std::marker::Model;
use trace_text::Trace;

/// The entries of a run with the table of their vectors.
#[derive(Drop)]
pub struct Vectors<'a> {
    code: &'a Code,
    trace: &'a Trace,
    parties: u32,
    table: Vec<u32>,
    seen: Vec<u32>,
}

impl<'a> Model for Vectors<'a> {
    ghost use Rattle.ac_causal.specs.Run.{CausalRun};
    ghost use Rattle.ac_causal.specs.inner.Opening.{AreVectors};

    ghost Value = { CausalRun };

    ghost view = { λ c. record {
      code = c.code.now;
      steps = c.trace.now.steps;
      entries = c.trace.now.entries;
      parties = c.parties;
    } };

    ghost invariant = { λ c. AreVectors c.code.now c.trace.now c.parties c.table.items c.seen.items };
}

impl<'a> Vectors<'a> {
    ghost use Rattle.std.specs.Prelude.{◌≡◌, ℕ, suc, ◌<◌, ◌^◌, ◌⊎◌, ◌↔◌, length, IfOk, IsTrue};
    ghost use Rattle.ac_causal.specs.Before.{IsBefore, IsVector};
    ghost use Rattle.ac_causal.specs.Cuts.{IsCut, IsInside};
    ghost use Rattle.ac_causal.specs.Run.{IsAudited};
    ghost use Rattle.ac_causal.specs.inner.Opening.{IsOpenMark};
    ghost use Rattle.ac_causal.specs.inner.Standing.{AreRunsTo};

    /// The entries of a trace, of a program that has this code.
    pub fn new(alloc: Global, code: &'a Code, trace: &'a Trace) -> Result<Vectors<'a>, NoMemory>
        requires audited { IsAudited code.now trace.now }
        requires few { length trace.now.entries < 2 ^ 32 }
        ensures code { IfOk result (λ it. it.code ≡ code.now) }
        ensures steps { IfOk result (λ it. it.steps ≡ trace.now.steps) }
        ensures entries { IfOk result (λ it. it.entries ≡ trace.now.entries) }
        ensures parties { IfOk result (λ it. it.parties ≡ suc (length code.now.entries)) }
    {
        // A code is valid, so its cores are few.
        let _instrs = code.instrs();
        let parties = code.entries().len() as u32 + 1;
        let links = code.capacities().len();
        let Rows { table, seen } = rows_of(alloc, links, parties, trace.entries.as_slice())?;
        Ok(Vectors {
            code,
            trace,
            parties,
            table,
            seen,
        })
    }

    /// How many there are.
    pub fn len(&self) -> u64
        ensures { result ≡ length self.now.entries }
    {
        self.trace.entries.len()
    }

    /// For each party how many of its entries are this one or came before it.
    pub fn vector(&self, alloc: Global, entry: u64) -> Result<List<u32>, NoMemory>
        requires { entry < length self.now.entries }
        ensures { IfOk result (λ it. IsVector self.now.entries self.now.parties entry it) }
    {
        let parties = self.parties;
        let table = self.table.as_slice();
        let mut counts = List::new(alloc);
        for party in 0..parties {
            counts.push(count_at(table, parties, entry as u32 + 1, party))?;
        }
        Ok(counts)
    }

    /// Whether one entry is the other or came before it.
    pub fn reaches(&self, one: u64, other: u64) -> bool
        requires one { one < length self.now.entries }
        requires other { other < length self.now.entries }
        ensures { IsTrue result ↔ ((one ≡ other) ⊎ IsBefore self.now.entries one other) }
    {
        let party = self.trace.entries.get(one).party;
        let table = self.table.as_slice();
        let own = count_at(table, self.parties, one as u32 + 1, party);
        let seen = count_at(table, self.parties, other as u32 + 1, party);
        own <= seen
    }

    /// Whether the counts are a cut.
    pub fn is_cut(&self, counts: &[u32]) -> bool
        ensures { IsTrue result ↔ IsCut self.now.entries self.now.parties counts.now }
    {
        is_cut(self.trace.entries.as_slice(), self.parties, counts)
    }

    // Whether the entry is among the first so many of its party.
    fn is_inside(&self, counts: &[u32], entry: u64) -> bool
        requires entry { entry < length self.now.entries }
        requires counts { length counts.now ≡ self.now.parties }
        ensures { IsTrue result ↔ IsInside self.now.entries counts.now entry }
    {
        let party = self.trace.entries.get(entry).party;
        let own = count_at(self.table.as_slice(), self.parties, entry as u32 + 1, party);
        own <= counts[party as usize]
    }

    /// The mark of what the entry answers, if the entry is in the cut and that is not; else 0.
    pub fn open_mark(&self, counts: &[u32], entry: u64) -> u32
        requires entry { entry < length self.now.entries }
        requires counts { length counts.now ≡ self.now.parties }
        ensures { IsOpenMark self.now.entries counts.now entry result }
    {
        let mark = self.seen[entry as usize];
        if mark == 0 {
            return 0;
        }
        if !self.is_inside(counts, entry) {
            return 0;
        }
        if self.is_inside(counts, u64::from(mark - 1)) {
            return 0;
        }
        mark
    }

    /// How each core ends under its first so many entries.
    pub fn states(&self, alloc: Global, counts: &[u32]) -> Result<List<CoreEnd>, NoMemory>
        requires { length counts.now ≡ self.now.parties }
        ensures { IfOk result (λ ends. AreRunsTo self.now.code self.now.steps self.now.entries counts.now
            (length self.now.code.entries) ends) }
    {
        states_of(alloc, self.code, self.trace, counts)
    }
}
