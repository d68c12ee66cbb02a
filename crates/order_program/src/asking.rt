//! What is told of a run.

ghost use Rattle.std.specs.Prelude.{◌<◌, ◌^◌, length, IfOk};
ghost use Rattle.ac_causal.specs.Run.{IsAudited};
ghost use Rattle.ac_compile.specs.Compiled.{IsCodeOf};
ghost use Rattle.ac_resolve.specs.Resolution.{resolved};
ghost use Rattle.ac_translation.specs.Same.{IsSame};
ghost use Rattle.trace_audit.specs.Judged.{Judges};
ghost use Rattle.order_words.specs.Called.{HasMeaning};
ghost use Rattle.order_program.specs.inner.Telling.{IsToldOf, IsToldOfRun};

use crate::entries::told_of_entries;
use crate::states::told_of_cut;
use crate::told::{Told, say, say_place};
use ac_base::NoMemory;
use ac_causal::Causal;
use ac_compile::compile;
use ac_types::Checked;
use order_words::{Question, read_numbers};
use program_reading::Both;
use stack_code::Code;
use std::alloc::Global;
use trace_audit::{Verdict, audit};
use trace_text::Trace;

// What is told of a run of a program with this code.
fn told_of_run(
    alloc: Global,
    code: &Code,
    trace: &Trace,
    question: Question<'_>,
) -> Result<Told, NoMemory>
    requires audited { IsAudited code.now trace.now }
    requires few { length trace.now.entries < 2 ^ 32 }
    requires meant { HasMeaning question }
    ensures { IfOk result (IsToldOfRun code.now trace.now question.entry) }
{
    let causal = Causal::new(alloc, code, trace)?;
    match question {
        Question::Order { one, other } => {
            told_of_entries(alloc, &causal, u64::from(one), u64::from(other))
        }
        Question::Cut { counts } => {
            let counts = read_numbers(alloc, counts)?;
            told_of_cut(alloc, code, &causal, &counts)
        }
    }
}

// The verdict on a trace.
fn judge(alloc: Global, code: &Code, program: &Checked, trace: &Trace) -> Result<Verdict, NoMemory>
    requires code { IsCodeOf program.now code.now }
    requires same { IsSame code.now (resolved program.now) }
    ensures { IfOk result (Judges (resolved program.now) trace.now) }
{
    audit(alloc, code, u64::from(program.files()), trace)
}

/// What is told of a trace: that it is no run of the program, or what is asked of the run.
pub fn told_of(alloc: Global, both: &Both, question: Question<'_>) -> Result<Told, NoMemory>
    requires few { length both.now.trace.entries < 2 ^ 32 }
    requires meant { HasMeaning question }
    ensures { IfOk result (IsToldOf both.now.program both.now.trace question.entry) }
{
    let code = compile(alloc, &both.program)?;
    match judge(alloc, &code, &both.program, &both.trace)? {
        Verdict::NoAt { entry } => say_place(alloc, 13, b"no at ", entry),
        Verdict::NoAtEnd => say(alloc, 13, "no at end\n"),
        Verdict::Yes => told_of_run(alloc, &code, &both.trace, question),
    }
}
