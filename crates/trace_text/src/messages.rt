//! Reading a message to the end of its line.

ghost use Rattle.std.specs.Prelude.{◌≡◌, ◌≤◌, [], IfOk};
ghost use Rattle.trace_text.specs.inner.Reading.{Gives, spaced_value, more_ints, count_in, message_at};

use crate::cursor::{Cursor, LineFault, end, positive, value, word};
use crate::version::Version;
use ac_base::{MOST_INTS, Message};

// Takes a blank and an int.
fn int(c: &mut Cursor<'_>) -> Result<i64, LineFault>
    ensures { Gives (λ v. (v, c.new.rest.now)) result (spaced_value c.old.rest.now) }
{
    word(c, b" ")?;
    value(c)
}

// Takes so many ints, each behind a blank.
fn ints(c: &mut Cursor<'_>, count: u64) -> Result<Message, LineFault>
    requires { (1 ≤ count) × (count ≤ 16) }
    ensures { Gives (λ message. (message, c.new.rest.now)) result (more_ints [] count c.old.rest.now) }
{
    let first = int(c)?;
    let mut message = Message::of(first);
    'ints: while u64::from(message.len()) < count {
        let next = int(c)?;
        message.push(next);
    }
    Ok(message)
}

// Takes the number of ints, where the version tells it.
fn count(c: &mut Cursor<'_>, version: Version) -> Result<u64, LineFault>
    ensures gives { Gives (λ n. (n, c.new.rest.now)) result (count_in version c.old.rest.now) }
    ensures some { IfOk result (λ n. 1 ≤ n) }
    ensures few { IfOk result (λ n. n ≤ 16) }
{
    match version {
        Version::First => Ok(1),
        Version::Second => {
            word(c, b" ")?;
            positive(c, u64::from(MOST_INTS))
        }
    }
}

/// The message that the rest of a line spells.
#[tactic(auto, unfolding(crate::specs::inner::Reading::message_at))]
pub fn message(version: Version, rest: &[u8]) -> Result<Message, LineFault>
    ensures { Gives (λ m. m) result (message_at version rest.now) }
{
    let mut c = Cursor { rest };
    let count = count(&mut c, version)?;
    let message = ints(&mut c, count)?;
    end(&c, message)
}
