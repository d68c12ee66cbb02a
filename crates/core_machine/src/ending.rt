//! How a core has ended.

ghost use Rattle.std.specs.Prelude.{◌≡◌};
ghost use Rattle.core_machine.specs.Words.{word_of, word_now};

use ac_base::{EndWord, Trap};

/// How a core has ended.
#[derive(Clone, Copy, Debug, PartialEq, Eq)]
pub enum Ending {
    /// Its first thread has ended.
    Finished,
    /// A step stopped it for good.
    Trapped(Trap),
    /// All steps are used, and the running thread has a next one; or all turns are used.
    OutOfSteps,
}

// The end word of a core that has ended so.
fn end_word(ending: Ending) -> EndWord
    ensures { result ≡ word_of ending }
{
    match ending {
        Ending::Finished => EndWord::Finished,
        Ending::Trapped(trap) => EndWord::Trapped(trap),
        Ending::OutOfSteps => EndWord::OutOfSteps,
    }
}

/// The end word of a core at present: one that has not ended is stalled.
pub fn word_now(ended: Option<Ending>) -> EndWord
    ensures { result ≡ word_now ended }
{
    match ended {
        Some(ending) => end_word(ending),
        None => EndWord::Stalled,
    }
}
