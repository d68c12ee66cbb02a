//! Reading a text of a library whole.

ghost use Rattle.std.specs.Prelude.{◌≡◌, ◌≢◌, ◌⊎◌, ◌+◌, ◌≤◌, length, IfOk, IsErrOf, Err};
ghost use Rattle.ac_outside.specs.Causes.{Rose};
ghost use Rattle.ac_outside.specs.Told.{CountsAtMost, OpenedJust};
ghost use Rattle.program_reading.specs.Reading.{Gave, TookBytes, TookByReads};

use ac_base::{Bytes, List};
use ac_outside::{Failed, Library};
use std::alloc::{AllocError, Global};
use thiserror::Error;

/// How many bytes a source may have.
pub const SOURCE_LIMIT: usize = 1_048_576;

/// How many bytes the text of a trace may have.
pub const TRACE_LIMIT: usize = 268_435_456;

// How many bytes one call reads at most.
const CHUNK: usize = 4096;

/// Why a text was not read.
#[derive(Clone, Copy, Debug, PartialEq, Eq, Error)]
pub enum ReadFault {
    /// A call of the library failed.
    #[error("library fault")]
    Failed,
    /// The text is over the limit.
    #[error("too long")]
    TooLong,
    /// Memory was refused.
    #[error("no memory")]
    NoMemory,
}

impl From<Failed> for ReadFault {
    ghost use Rattle.std.specs.Prelude.{◌≡◌};
    ghost use Rattle.program_reading.specs.declared.reading.ReadFault.TheVariants.{Failed as FailedFault};

    ghost from_gives = { λ _ e. e ≡ FailedFault };

    fn from(_: Failed) -> ReadFault {
        ReadFault::Failed
    }
}

impl From<AllocError> for ReadFault {
    ghost use Rattle.std.specs.Prelude.{◌≡◌};
    ghost use Rattle.program_reading.specs.declared.reading.ReadFault.TheVariants.{NoMemory};

    ghost from_gives = { λ _ e. e ≡ NoMemory };

    fn from(_: AllocError) -> ReadFault {
        ReadFault::NoMemory
    }
}

/// Opens the text of a name and reads it to its end, or to one byte past the limit. Whatever the
/// answer, just that text was opened, once, and read no more often than what was taken takes.
pub fn read_text<L: Library>(
    alloc: Global,
    library: &mut L,
    name: &str,
    limit: usize,
) -> Result<Bytes, ReadFault>
    requires { limit ≤ TRACE_LIMIT }
    ensures same { (L.told library.new).text_at ≡ (L.told library.old).text_at }
    ensures just { OpenedJust (L.told library.old) (L.told library.new) name.now }

    ensures tried { ((L.told library.new).reads ≡ (L.told library.old).reads)
        ⊎ TookByReads (L.told library.old) (L.told library.new) name.now }
    ensures took { result ≢ Err ReadFault.Failed → TookByReads (L.told library.old) (L.told library.new) name.now }
    ensures few { IfOk result (λ text. CountsAtMost (L.told library.old).reads (L.told library.new).reads (length text + 1)) }

    ensures whole { IfOk result (λ text. Gave ((L.told library.old).text_at name.now) text) }
    ensures short { IfOk result (λ text. length text ≤ limit) }
    ensures long { IsErrOf result ReadFault.TooLong →
        TookBytes ((L.told library.old).text_at name.now) (L.told library.new).left (limit + 1) }

    ensures failed { IsErrOf result ReadFault.Failed → Rose (L.told library.old).faults (L.told library.new).faults }
    ensures well { result ≢ Err ReadFault.Failed → (L.told library.new).faults ≡ (L.told library.old).faults }
{
    let mut text = Vec::new(alloc);
    library.open_text(name)?;
    let mut chunk = [0u8; CHUNK];
    'reading: while text.len() <= limit {
        let want = CHUNK.min(limit + 1 - text.len());
        let count = library.read(&mut chunk[..want])?;
        if count == 0 {
            return Ok(List::from_vec(text));
        }
        text.extend_from_slice(&chunk[..count])?;
    }
    Err(ReadFault::TooLong)
}
