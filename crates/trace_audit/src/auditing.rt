//! The audit: each entry in turn, and then the end.

ghost use Rattle.std.specs.Prelude.{◌≡◌, ◌↔◌, length, [], true, IfOk, IfSome, IfNone, IsTrue};
ghost use Rattle.ac_commands.specs.declared.program.Resolved.{Resolved};
ghost use Rattle.stack_code.specs.Parts.{Parts};
ghost use Rattle.ac_translation.specs.Translation.{code_of};
ghost use Rattle.ac_translation.specs.Same.{IsSame};
ghost use Rattle.trace_text.specs.declared.trace.Trace.{Trace};
ghost use Rattle.trace_audit.specs.Judged.{Judges};
ghost use Rattle.trace_audit.specs.inner.Coded as coded;
ghost use Rattle.trace_audit.specs.inner.Replaying.{HasTaken, TookAll, StepsOn};

use crate::ends::{are_short, are_told};
use crate::parties::parties_of;
use crate::replays::{Replays, ends_of};
use crate::verdict::Verdict;
use ac_base::{NoMemory, Stamped};
use ac_history::Legal;
use stack_code::Code;
use std::alloc::Global;
use trace_text::Trace;

// Takes the entry, where it may come next, and says whether it did.
fn step(legal: &mut Legal, replays: &mut Replays<'_>, stamped: &Stamped) -> Result<bool, NoMemory>
    requires { TookAll replays.old.cores.items }
    ensures steps { IfOk result (λ b. StepsOn legal.old replays.old.cores.items stamped.now b legal.new replays.new.cores.items) }
    ensures took_all { IfOk result (λ b. b ≡ true → TookAll replays.new.cores.items) }
{
    if !legal.step(stamped)? {
        return Ok(false);
    }
    replays.step(stamped)
}

// Takes the entries up to the first that may not come next, and gives its place.
fn first_misfit(
    legal: &mut Legal,
    replays: &mut Replays<'_>,
    entries: &[Stamped],
) -> Result<Option<u64>, NoMemory>
    requires { TookAll replays.old.cores.items }
    ensures none { IfOk result (λ misfit. IfNone misfit
        ((code : Parts) (t : Trace) → t.entries ≡ entries.now → HasTaken code t [] legal.old replays.old.cores.items
        → HasTaken code t t.entries legal.new replays.new.cores.items × coded.AllFit code t [] t.entries)) }
    ensures some { IfOk result (λ misfit. IfSome misfit
        (λ place. (code : Parts) (t : Trace) → t.entries ≡ entries.now → HasTaken code t [] legal.old replays.old.cores.items
        → coded.IsFirstMisfit code t place)) }
{
    for (place, stamped) in entries.iter().enumerate() {
        if !step(legal, replays, stamped)? {
            return Ok(Some(place as u64));
        }
    }
    Ok(None)
}

// Whether the trace, of which all entries have been taken, tells the end.
fn ends_well(
    alloc: Global,
    code: &Code,
    files: u64,
    trace: &Trace,
    legal: &Legal,
    replays: Replays<'_>,
) -> Result<bool, NoMemory>
    requires { HasTaken code.now trace.now trace.now.entries legal.now replays.cores.items }
    ensures { IfOk result (λ b. IsTrue b ↔ coded.EndsWell code.now files trace.now) }
{
    let ends = ends_of(alloc, replays)?;
    let parties = parties_of(alloc, code)?;
    Ok(
        trace.start.len() == files
            && are_short(trace.start.as_slice())
            && are_told(trace.ends.as_slice(), ends.as_slice())
            && legal.is_quiet(&parties, &ends),
    )
}

// The same of a code alone.
fn audit_code(alloc: Global, code: &Code, files: u64, trace: &Trace) -> Result<Verdict, NoMemory>
    ensures { IfOk result (λ verdict. coded.Judges code.now files trace.now verdict) }
{
    // A code is valid, so it has a width for each channel, and then a link for each core.
    let _instrs = code.instrs();
    let cores = code.entries().len() as u32;
    let mut legal = Legal::new(alloc, code.capacities(), code.widths(), cores, &trace.start)?;
    let mut replays = Replays::new(alloc, code, trace.steps)?;
    match first_misfit(&mut legal, &mut replays, trace.entries.as_slice())? {
        Some(entry) => Ok(Verdict::NoAt { entry }),
        None => {
            if ends_well(alloc, code, files, trace, &legal, replays)? {
                Ok(Verdict::Yes)
            } else {
                Ok(Verdict::NoAtEnd)
            }
        }
    }
}

/// Whether the trace is a run of any program with this code and so many files, and where it is none,
/// the first entry that does not fit, or else that the end does not.
///
/// Each core is replayed once: it goes on from entry to entry.
pub fn audit(alloc: Global, code: &Code, files: u64, trace: &Trace) -> Result<Verdict, NoMemory>
    ensures { IfOk result (λ verdict. (program : Resolved) → code.now ≡ code_of program → IsSame code.now program
        → files ≡ length program.files → Judges program trace.now verdict) }
{
    audit_code(alloc, code, files, trace)
}
