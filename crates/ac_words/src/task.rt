//! What can be done with the program of a file.

ghost use Rattle.std.specs.Prelude.{◌≡◌, IsNone, IfSome};
ghost use Rattle.ac_words.specs.declared.task.Task.{Task};
ghost use Rattle.ac_words.specs.Words.{IsTask, steps_of};

/// The number of steps that each core may use where the words give none.
pub const USUAL_STEPS: u32 = 100_000;

/// What is written of a run.
#[derive(Clone, Copy, Debug, PartialEq, Eq)]
pub enum Telling {
    /// How each core ended, and what it printed.
    Report,
    /// All that happened, entry by entry.
    Trace,
    /// How a load of so many turns ended, and what its clients printed.
    Summary(u32),
}

/// What is to be done with the program of a file.
#[derive(Clone, Copy, Debug, PartialEq, Eq)]
pub enum Task {
    /// To run it, each core for so many steps at most, and to tell of the run.
    Run(u32, Telling),
    /// To say whether it is accepted.
    Check,
    /// To write the listing of its code.
    Code,
}

impl Task {
    /// How many steps each core may go.
    pub fn steps(self) -> u32
        ensures { result ≡ steps_of self }
    {
        match self {
            Task::Run(steps, _) => steps,
            Task::Check | Task::Code => 0,
        }
    }
}

/// The task for which a command stands, with the bound on steps where one is given.
pub fn task_of(command: &str, given: Option<u32>) -> Option<Task>
    ensures none { IsNone result → (task : Task) → IsTask command.now given task → ⊥ }
    ensures some { IfSome result (IsTask command.now given) }
    ensures only { IfSome result (λ found. (task : Task) → IsTask command.now given task → task ≡ found) }
{
    if command == "run" {
        Some(Task::Run(given.unwrap_or(USUAL_STEPS), Telling::Report))
    } else if command == "trace" {
        Some(Task::Run(given.unwrap_or(USUAL_STEPS), Telling::Trace))
    } else if given.is_some() {
        None
    } else if command == "check" {
        Some(Task::Check)
    } else if command == "code" {
        Some(Task::Code)
    } else {
        None
    }
}
