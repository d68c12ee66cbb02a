//! The trace as far as its lines were read, and one line more.

ghost use Rattle.std.specs.Prelude.{◌≡◌, ℕ, List, codes, ◌==◌, length};
ghost use Rattle.trace_text.specs.inner.Reading.{Gives, starts, numbered_at, steps_at, file_at};
ghost use Rattle.trace_text.specs.inner.Reading.{version_at, entry_at, trap_at, end_word_at, end_at, nothing};
ghost use Rattle.trace_text.specs.inner.Reading.{after_title, after_steps, after_file, after_entry};
ghost use Rattle.trace_text.specs.inner.Reading.{after_end, after_entry_or_end, after_any, after_line};
ghost use Rattle.ac_base.specs.declared.ends.EndWord.TheVariants.{Trapped};

use crate::cursor::{
    Cursor, LineFault, end, positive, small, spaced, spaced_bytes, spaced_small, word,
};
use crate::events::event;
use crate::trace::{Trace, TraceEnd};
use crate::version::Version;
use ac_base::{Bytes, EndWord, Entry, List, Stamped, Trap};
use std::alloc::Global;

/// Which lines may come next.
#[derive(Clone, Copy, Debug)]
pub enum Stage {
    Title,
    Steps,
    Files,
    Entries,
    Ends,
}

/// What the lines so far tell.
#[derive(Debug, Drop)]
pub struct SoFar {
    pub stage: Stage,
    pub version: Version,
    pub trace: Trace,
}

// The bound on steps.
const MOST_STEPS: u64 = 2_000_000;

// The greatest stamp.
const LAST_STAMP: u64 = 1_152_921_504_606_846_975;

fn starts_with(line: &[u8], first: u8) -> bool
    ensures { result ≡ starts (λ b. b == first) line.now }
{
    match line {
        [] => false,
        [b, ..] => *b == first,
    }
}

fn version(line: &[u8]) -> Result<Version, LineFault>
    ensures { Gives (λ version. version) result (version_at line.now) }
{
    if line == Version::First.title() {
        Ok(Version::First)
    } else if line == Version::Second.title() {
        Ok(Version::Second)
    } else {
        Err(LineFault::Wrong)
    }
}

fn steps(line: &[u8]) -> Result<u64, LineFault>
    ensures { Gives (λ n. n) result (steps_at line.now) }
{
    let mut c = Cursor { rest: line };
    word(&mut c, b"steps ")?;
    let steps = positive(&mut c, MOST_STEPS)?;
    end(&c, steps)
}

// Takes a word and that number.
#[tactic(auto, unfolding(crate::specs::inner::Reading::numbered_at))]
fn numbered(c: &mut Cursor<'_>, wanted: &[u8], number: u64) -> Result<(), LineFault>
    ensures { Gives (λ _. c.new.rest.now) result (numbered_at wanted.now number c.old.rest.now) }
{
    word(c, wanted)?;
    if u64::from(small(c)?) != number {
        return Err(LineFault::Wrong);
    }
    Ok(())
}

fn file(alloc: Global, number: u64, line: &[u8]) -> Result<Bytes, LineFault>
    ensures { Gives (λ bytes. bytes) result (file_at number line.now) }
{
    let mut c = Cursor { rest: line };
    numbered(&mut c, b"file ", number)?;
    spaced_bytes(alloc, &mut c)
}

#[tactic(auto, unfolding(crate::specs::inner::Reading::entry_at))]
fn entry(alloc: Global, version: Version, line: &[u8]) -> Result<Stamped, LineFault>
    ensures { Gives (λ entry. entry) result (entry_at version line.now) }
{
    let mut c = Cursor { rest: line };
    let stamp = positive(&mut c, LAST_STAMP)?;
    let party = spaced_small(&mut c)?;
    let turn = spaced(&mut c, u64::MAX)?;
    let event = event(alloc, version, c.rest)?;
    Ok(Stamped {
        party,
        entry: Entry { stamp, turn, event },
    })
}

// Takes the word of a trap.
fn trap(c: &mut Cursor<'_>) -> Result<Trap, LineFault>
    ensures { Gives (λ trap. (Trapped trap, c.new.rest.now)) result (trap_at c.old.rest.now) }
{
    if let Some(rest) = c.rest.strip_prefix(b"zero-divisor") {
        c.rest = rest;
        return Ok(Trap::ZeroDivisor);
    }
    if let Some(rest) = c.rest.strip_prefix(b"index") {
        c.rest = rest;
        return Ok(Trap::Index);
    }
    if let Some(rest) = c.rest.strip_prefix(b"stack-full") {
        c.rest = rest;
        return Ok(Trap::StackFull);
    }
    if let Some(rest) = c.rest.strip_prefix(b"output-full") {
        c.rest = rest;
        return Ok(Trap::OutputFull);
    }
    if let Some(rest) = c.rest.strip_prefix(b"file-range") {
        c.rest = rest;
        return Ok(Trap::FileRange);
    }
    Err(LineFault::Wrong)
}

// Takes the word for how a core ended.
#[tactic(auto, unfolding(crate::specs::inner::Reading::end_word_at))]
fn end_word(c: &mut Cursor<'_>) -> Result<EndWord, LineFault>
    ensures { Gives (λ word. (word, c.new.rest.now)) result (end_word_at c.old.rest.now) }
{
    if let Some(rest) = c.rest.strip_prefix(b"finished") {
        c.rest = rest;
        return Ok(EndWord::Finished);
    }
    if let Some(rest) = c.rest.strip_prefix(b"out-of-steps") {
        c.rest = rest;
        return Ok(EndWord::OutOfSteps);
    }
    if let Some(rest) = c.rest.strip_prefix(b"stalled") {
        c.rest = rest;
        return Ok(EndWord::Stalled);
    }
    let trap = trap(c)?;
    Ok(EndWord::Trapped(trap))
}

#[tactic(auto, unfolding(crate::specs::inner::Reading::end_at))]
fn trace_end(alloc: Global, number: u64, line: &[u8]) -> Result<TraceEnd, LineFault>
    ensures { Gives (λ end. end) result (end_at number line.now) }
{
    let mut c = Cursor { rest: line };
    numbered(&mut c, b"end ", number)?;
    word(&mut c, b" ")?;
    let word = end_word(&mut c)?;
    let steps = spaced(&mut c, u64::MAX)?;
    let output = spaced_bytes(alloc, &mut c)?;
    Ok(TraceEnd {
        word,
        steps,
        output,
    })
}

impl SoFar {
    /// No line was read.
    pub fn new(alloc: Global) -> SoFar
        ensures { result ≡ nothing }
    {
        SoFar {
            stage: Stage::Title,
            version: Version::First,
            trace: Trace {
                steps: 0,
                start: List::new(alloc),
                entries: List::new(alloc),
                ends: List::new(alloc),
            },
        }
    }

    fn add_title(&mut self, line: &[u8]) -> Result<(), LineFault>
        ensures { Gives (λ _. self.new) result (after_title self.old line.now) }
    {
        self.version = version(line)?;
        self.stage = Stage::Steps;
        Ok(())
    }

    fn add_steps(&mut self, line: &[u8]) -> Result<(), LineFault>
        ensures { Gives (λ _. self.new) result (after_steps self.old line.now) }
    {
        self.trace.steps = steps(line)?;
        self.stage = Stage::Files;
        Ok(())
    }

    fn add_file(&mut self, alloc: Global, line: &[u8]) -> Result<(), LineFault>
        ensures { Gives (λ _. self.new) result (after_file self.old line.now) }
    {
        let bytes = file(alloc, self.trace.start.len(), line)?;
        self.trace.start.push(bytes)?;
        Ok(())
    }

    fn add_entry(&mut self, alloc: Global, line: &[u8]) -> Result<(), LineFault>
        ensures { Gives (λ _. self.new) result (after_entry self.old line.now) }
    {
        let entry = entry(alloc, self.version, line)?;
        self.trace.entries.push(entry)?;
        self.stage = Stage::Entries;
        Ok(())
    }

    fn add_end(&mut self, alloc: Global, line: &[u8]) -> Result<(), LineFault>
        ensures { Gives (λ _. self.new) result (after_end self.old line.now) }
    {
        let end = trace_end(alloc, self.trace.ends.len(), line)?;
        self.trace.ends.push(end)?;
        self.stage = Stage::Ends;
        Ok(())
    }

    fn add_entry_or_end(&mut self, alloc: Global, line: &[u8]) -> Result<(), LineFault>
        ensures { Gives (λ _. self.new) result (after_entry_or_end self.old line.now) }
    {
        if starts_with(line, b'e') {
            self.add_end(alloc, line)
        } else {
            self.add_entry(alloc, line)
        }
    }

    fn add_any(&mut self, alloc: Global, line: &[u8]) -> Result<(), LineFault>
        ensures { Gives (λ _. self.new) result (after_any self.old line.now) }
    {
        if starts_with(line, b'f') {
            self.add_file(alloc, line)
        } else {
            self.add_entry_or_end(alloc, line)
        }
    }

    /// One line more, without its line feed.
    #[tactic(auto, unfolding(crate::specs::inner::Reading::after_line))]
    pub fn add(&mut self, alloc: Global, line: &[u8]) -> Result<(), LineFault>
        ensures { Gives (λ _. self.new) result (after_line self.old line.now) }
    {
        match self.stage {
            Stage::Title => self.add_title(line),
            Stage::Steps => self.add_steps(line),
            Stage::Files => self.add_any(alloc, line),
            Stage::Entries => self.add_entry_or_end(alloc, line),
            Stage::Ends => self.add_end(alloc, line),
        }
    }
}
