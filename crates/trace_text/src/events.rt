//! Reading an event to the end of its line.

ghost use Rattle.std.specs.Prelude.{◌≡◌};
ghost use Rattle.trace_text.specs.inner.Reading.{Gives, offer_at, range_at, int_at, read_at, write_at, payload_at, count_at, answer_at};
ghost use Rattle.trace_text.specs.inner.Reading.{bare_offer_at, offered_at, got_at, answered_at, taking_at, event_at};
ghost use Rattle.ac_base.specs.declared.entry.Event.TheVariants.{Did, Reply};

use crate::cursor::{
    Cursor, LineFault, bytes, end, small, spaced, spaced_bytes, spaced_small, word,
};
use crate::messages::message;
use crate::version::Version;
use ac_base::{Answer, Event, Payload};
use std::alloc::Global;

// The number of a link and that of an offer on it.
#[derive(Clone, Copy)]
struct OfferName {
    link: u32,
    number: u64,
}

// Takes the number of a link and that of an offer on it.
fn offer(c: &mut Cursor<'_>) -> Result<OfferName, LineFault>
    ensures { Gives (λ o. ((o.link, o.number), c.new.rest.now)) result (offer_at c.old.rest.now) }
{
    let link = small(c)?;
    let number = spaced(c, u64::MAX)?;
    Ok(OfferName { link, number })
}

// The file and the place of a request.
#[derive(Clone, Copy)]
struct FilePlace {
    file: u32,
    from: u32,
}

// Takes the file and the place of a request.
fn range(c: &mut Cursor<'_>) -> Result<FilePlace, LineFault>
    ensures { Gives (λ r. ((r.file, r.from), c.new.rest.now)) result (range_at c.old.rest.now) }
{
    let file = small(c)?;
    let from = spaced_small(c)?;
    Ok(FilePlace { file, from })
}

fn int(version: Version, rest: &[u8]) -> Result<Payload, LineFault>
    ensures { Gives (λ p. p) result (int_at version rest.now) }
{
    let message = message(version, rest)?;
    Ok(Payload::Int(message))
}

fn read(rest: &[u8]) -> Result<Payload, LineFault>
    ensures { Gives (λ p. p) result (read_at rest.now) }
{
    let mut c = Cursor { rest };
    let range = range(&mut c)?;
    let len = spaced_small(&mut c)?;
    let payload = Payload::Read {
        file: range.file,
        from: range.from,
        len,
    };
    end(&c, payload)
}

fn write(alloc: Global, rest: &[u8]) -> Result<Payload, LineFault>
    ensures { Gives (λ p. p) result (write_at rest.now) }
{
    let mut c = Cursor { rest };
    let range = range(&mut c)?;
    let bytes = spaced_bytes(alloc, &mut c)?;
    Ok(Payload::Write {
        file: range.file,
        from: range.from,
        bytes,
    })
}

#[tactic(auto, unfolding(crate::specs::inner::Reading::payload_at))]
fn payload(alloc: Global, version: Version, text: &[u8]) -> Result<Payload, LineFault>
    ensures { Gives (λ p. p) result (payload_at version text.now) }
{
    if let Some(rest) = text.strip_prefix(version.offered_word()) {
        return int(version, rest);
    }
    if let Some(rest) = text.strip_prefix(b" read ") {
        return read(rest);
    }
    if let Some(rest) = text.strip_prefix(b" write ") {
        return write(alloc, rest);
    }
    Err(LineFault::Wrong)
}

fn count(rest: &[u8]) -> Result<u32, LineFault>
    ensures { Gives (λ n. n) result (count_at rest.now) }
{
    let mut c = Cursor { rest };
    let count = small(&mut c)?;
    end(&c, count)
}

#[tactic(auto, unfolding(crate::specs::inner::Reading::answer_at))]
fn answer(alloc: Global, text: &[u8]) -> Result<Answer, LineFault>
    ensures { Gives (λ a. a) result (answer_at text.now) }
{
    if let Some(rest) = text.strip_prefix(b" bytes ") {
        let bytes = bytes(alloc, &Cursor { rest })?;
        return Ok(Answer::Bytes(bytes));
    }
    if let Some(rest) = text.strip_prefix(b" count ") {
        let count = count(rest)?;
        return Ok(Answer::Count(count));
    }
    if let Some(rest) = text.strip_prefix(b" fault ") {
        let count = count(rest)?;
        return Ok(Answer::Fault(count));
    }
    Err(LineFault::Wrong)
}

// An offer's numbers, with nothing behind them.
fn bare(rest: &[u8]) -> Result<OfferName, LineFault>
    ensures { Gives (λ o. (o.link, o.number)) result (bare_offer_at rest.now) }
{
    let mut c = Cursor { rest };
    let offer = offer(&mut c)?;
    match c.rest {
        [] => Ok(offer),
        _ => Err(LineFault::Wrong),
    }
}

fn offered(alloc: Global, version: Version, rest: &[u8]) -> Result<Event, LineFault>
    ensures { Gives (λ e. e) result (offered_at version rest.now) }
{
    let mut c = Cursor { rest };
    let OfferName { link, number } = offer(&mut c)?;
    let payload = payload(alloc, version, c.rest)?;
    Ok(Event::Offer {
        link,
        number,
        payload,
    })
}

fn got(version: Version, rest: &[u8]) -> Result<Event, LineFault>
    ensures { Gives (λ e. e) result (got_at version rest.now) }
{
    let mut c = Cursor { rest };
    let OfferName { link, number } = offer(&mut c)?;
    word(&mut c, version.got_word())?;
    let value = message(version, c.rest)?;
    Ok(Event::Got {
        link,
        number,
        value,
    })
}

fn did(alloc: Global, rest: &[u8]) -> Result<Event, LineFault>
    ensures { Gives (λ e. e) result (answered_at Did rest.now) }
{
    let mut c = Cursor { rest };
    let OfferName { link, number } = offer(&mut c)?;
    let answer = answer(alloc, c.rest)?;
    Ok(Event::Did {
        link,
        number,
        answer,
    })
}

fn reply(alloc: Global, rest: &[u8]) -> Result<Event, LineFault>
    ensures { Gives (λ e. e) result (answered_at Reply rest.now) }
{
    let mut c = Cursor { rest };
    let OfferName { link, number } = offer(&mut c)?;
    let answer = answer(alloc, c.rest)?;
    Ok(Event::Reply {
        link,
        number,
        answer,
    })
}

// What the receiving end of a link makes, or the sending end behind it.
#[tactic(auto, unfolding(crate::specs::inner::Reading::taking_at))]
fn taking(alloc: Global, version: Version, text: &[u8]) -> Result<Event, LineFault>
    ensures { Gives (λ e. e) result (taking_at version text.now) }
{
    if let Some(rest) = text.strip_prefix(b" got ") {
        return got(version, rest);
    }
    if let Some(rest) = text.strip_prefix(b" pass ") {
        let OfferName { link, number } = bare(rest)?;
        return Ok(Event::Pass { link, number });
    }
    if let Some(rest) = text.strip_prefix(b" did ") {
        return did(alloc, rest);
    }
    if let Some(rest) = text.strip_prefix(b" reply ") {
        return reply(alloc, rest);
    }
    Err(LineFault::Wrong)
}

/// The event that the rest of a line spells.
#[tactic(auto, unfolding(crate::specs::inner::Reading::event_at))]
pub fn event(alloc: Global, version: Version, text: &[u8]) -> Result<Event, LineFault>
    ensures { Gives (λ e. e) result (event_at version text.now) }
{
    if let Some(rest) = text.strip_prefix(b" offer ") {
        return offered(alloc, version, rest);
    }
    if let Some(rest) = text.strip_prefix(b" withdraw ") {
        let OfferName { link, number } = bare(rest)?;
        return Ok(Event::Withdraw { link, number });
    }
    if let Some(rest) = text.strip_prefix(b" know ") {
        let OfferName { link, number } = bare(rest)?;
        return Ok(Event::Know { link, number });
    }
    if let Some(rest) = text.strip_prefix(b" room ") {
        let OfferName { link, number } = bare(rest)?;
        return Ok(Event::Room { link, number });
    }
    taking(alloc, version, text)
}
