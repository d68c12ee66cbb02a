//! From a source text to the program that it spells.

ghost use Rattle.std.specs.Prelude.{◌≤◌, length};
ghost use Rattle.ac_words.specs.declared.task.Task.{Task};
ghost use Rattle.program_reading.specs.inner.Parts.{GivesTokens, GivesProgram, GivesChecked};

use crate::refusal::Stop;
use ac_base::List;
use ac_lexer::{Token, lex};
use ac_parser::parse;
use ac_tree::Program;
use ac_types::{Checked, check};
use std::alloc::Global;

// The tokens of a source.
fn tokens_of(alloc: Global, source: &[u8]) -> Result<List<Token>, Stop>
    requires { length source.now ≤ 1048576 }
    ensures { (task : Task) → GivesTokens source.now task result }
{
    let tokens = lex(alloc, source)?;
    Ok(tokens)
}

// The program that a source spells.
fn program_of(alloc: Global, source: &[u8]) -> Result<Program, Stop>
    requires { length source.now ≤ 1048576 }
    ensures { (task : Task) → GivesProgram source.now task result }
{
    let tokens = tokens_of(alloc, source)?;
    let program = parse(alloc, &tokens, source.len() as u32)?;
    Ok(program)
}

/// The program that a source of at most 1,048,576 bytes spells, where it breaks no rule.
pub fn accept(alloc: Global, source: &[u8]) -> Result<Checked, Stop>
    requires { length source.now ≤ 1048576 }
    ensures { (task : Task) → GivesChecked source.now task result }
{
    let program = program_of(alloc, source)?;
    let checked = check(alloc, program)?;
    Ok(checked)
}
