//! What a core begins with.

ghost use Rattle.std.specs.Prelude.{◌≡◌, ◌<◌, length, All, IfOk};
ghost use Rattle.core_state.specs.Shared.{request_link};
ghost use Rattle.stack_code.specs.declared.parts.Start.{Start};
ghost use Rattle.code_meaning.specs.Machine.{with_starts};
ghost use Rattle.core_state.specs.Frames.{has_words};
ghost use Rattle.core_machine.specs.inner.Beginning.{HasBegun};

use crate::ending::Ending;
use ac_base::{NoMemory, Trap};
use stack_code::{Code, Start};
use work_item::Frames;

// How many words the globals and the frames of a core may have.
const WORD_LIMIT: u64 = 4_194_304;

/// Sets the globals that start with something else than 0.
pub fn set_starts(frames: &mut Frames, starts: &[Start])
    requires { All (λ (x : Start). x.slot < length frames.old.globals) starts.now }
    ensures globals { frames.new.globals ≡ with_starts starts.now frames.old.globals }
    ensures frames { frames.new.frames ≡ frames.old.frames }
{
    for start in starts {
        frames.write_global(start.slot, start.value);
    }
}

/// The link of a core's requests, which comes after the channels and the requests of the cores before.
pub fn request_link(code: &Code, core: u32) -> u32
    requires { core < length code.now.entries }
    ensures { result ≡ request_link (length code.now.ends) core }
{
    // A code is valid, so its links are few.
    let _instrs = code.instrs();
    (code.ends().len() + core as usize) as u32
}

/// Whether a frame of so many slots keeps the words within their limit.
pub fn has_room(frames: &Frames, slots: u32) -> bool
    ensures { result ≡ has_words frames.now slots }
{
    let words = frames.live_words();
    words <= WORD_LIMIT && u64::from(slots) + 4 <= WORD_LIMIT - words
}

/// Makes the frame with which a core begins; where there is no room for it, the core has ended, and
/// no memory is taken.
pub fn make_first(frames: &mut Frames, words: u32) -> Result<Option<Ending>, NoMemory>
    ensures { IfOk result (λ ended. HasBegun frames.old frames.new words ended) }
{
    if !has_room(frames, words) {
        return Ok(Some(Ending::Trapped(Trap::StackFull)));
    }
    frames.make(None, words)?;
    Ok(None)
}
