//! What the words of a command line ask for.

ghost use Rattle.std.specs.Prelude.{◌≡◌, [], ◌∷◌, codes, map, string_bytes, IsNone, IfSome};
ghost use Rattle.ac_words.specs.Words.{Asked, StandsFor, IsCall};
ghost use Rattle.ac_words.specs.Called.{asked_of};
ghost use Rattle.ac_words.specs.inner.Scanning.{texts_of};

use crate::bound::read_turns;
use crate::scan::{Arguments, Operands, read_arguments};
use crate::task::{Task, USUAL_STEPS, task_of};

/// What words ask for.
#[derive(Clone, Copy, Debug, PartialEq, Eq)]
pub enum Call<'a> {
    /// A task with the program of this file.
    Does { task: Task, file: &'a str },
    /// Whether the trace of a file is a run of the program of another.
    Audits { file: &'a str, trace: &'a str },
    /// A run of the file server, whose clients take so many turns, each core for so many steps at most.
    Loads { turns: u32, steps: u32 },
}

// What `load` stands for with this operand, and with the bound on steps where one is given.
fn load_of<'a>(word: &'a str, given: Option<u32>) -> Option<Call<'a>>
    ensures none { IsNone result → (asked : Asked) → StandsFor (codes "load") (word.now ∷ []) given asked → ⊥ }
    ensures some { IfSome result (λ call. StandsFor (codes "load") (word.now ∷ []) given (asked_of call)) }
    ensures only { IfSome result (λ call. (asked : Asked) → StandsFor (codes "load") (word.now ∷ []) given asked
        → asked ≡ asked_of call) }
{
    let turns = read_turns(word.as_bytes())?;
    Some(Call::Loads {
        turns,
        steps: given.unwrap_or(USUAL_STEPS),
    })
}

// What a command stands for with these arguments.
fn call_of<'a>(command: &str, arguments: Arguments<'a>) -> Option<Call<'a>>
    ensures none { IsNone result → (asked : Asked)
        → StandsFor command.now (texts_of arguments.entry.operands) arguments.entry.steps asked → ⊥ }
    ensures some { IfSome result (λ call. StandsFor command.now (texts_of arguments.entry.operands) arguments.entry.steps (asked_of call)) }
    ensures only { IfSome result (λ call. (asked : Asked)
        → StandsFor command.now (texts_of arguments.entry.operands) arguments.entry.steps asked → asked ≡ asked_of call) }
{
    match arguments.operands {
        Operands::Zero => None,
        Operands::One(word) => {
            if command == "load" {
                load_of(word, arguments.steps)
            } else {
                let task = task_of(command, arguments.steps)?;
                Some(Call::Does { task, file: word })
            }
        }
        Operands::Two(file, trace) => {
            if command == "audit" && arguments.steps.is_none() {
                Some(Call::Audits { file, trace })
            } else {
                None
            }
        }
    }
}

/// Reads the words after the program's name: a command, its one operand FILE, after `audit` its two,
/// FILE and TRACE, or after `load` its one, a number from 1 to 500, and after `run`, `trace` or `load`
/// at most one bound on steps, as `--steps N` or `--steps=N`. It gives none exactly where they are not
/// of this form, and else the only call that they form.
pub fn read_words(words: &[String]) -> Option<Call<'_>>
    ensures usage { IsNone result → (asked : Asked) → IsCall (map string_bytes words.now) asked → ⊥ }
    ensures call { IfSome result (λ call. IsCall (map string_bytes words.now) (asked_of call)) }
    ensures only { IfSome result (λ call. (asked : Asked) → IsCall (map string_bytes words.now) asked → asked ≡ asked_of call) }
{
    let (command, others) = words.split_first()?;
    let arguments = read_arguments(others)?;
    call_of(command.as_str(), arguments)
}
