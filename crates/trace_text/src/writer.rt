//! Writing a trace, line by line.

ghost use Rattle.std.specs.Prelude.{◌≡◌, ◌++◌, ◌∷◌, ◌<◌, ◌≤◌, [], length, All, OnOk};
ghost use Rattle.std.specs.Fmt.{decimal, signed_decimal};
ghost use Rattle.ac_base.specs.Hexadecimal.{hex_digit, hex_digits, hex_of};
ghost use Rattle.trace_text.specs.Text.{spaced, offer_name, ints_text, message_text, payload_text, answer_text, event_text, title};
ghost use Rattle.trace_text.specs.Text.{steps_line, file_line, entry_line, outcome_text, end_line};
ghost use Rattle.trace_text.specs.Text.{file_lines, entry_lines, end_lines, joined};
ghost use Rattle.trace_text.specs.Fitting.{EntryFits, NumbersFit};
ghost use Rattle.trace_text.specs.Outcomes.{Writes, trace_limit};
ghost use Rattle.trace_text.specs.Spelling.{AreBytes, IsAnswer, IsEnd, IsEvent, IsMessage, IsOffer, IsPayload, IsValue};
ghost use Rattle.trace_text.specs.Versions.{version_of};
ghost use Rattle.trace_text.specs.inner.Adding.{Adds};

use crate::faults::WriteFault;
use crate::trace::{Trace, TraceEnd};
use crate::version::{Version, version_of};
use ac_base::{Answer, Bytes, Event, List, Message, NoMemory, Payload, Stamped, end_word};
use std::alloc::Global;

/// The greatest length of a text, in bytes.
const MOST_BYTES: usize = 268_435_456;

fn add_number(alloc: Global, text: &mut Vec<u8>, number: u64) -> Result<(), NoMemory>
    ensures { OnOk result (text.new.items ≡ text.old.items ++ decimal number) }
{
    let digits = number.to_string(alloc)?;
    text.extend_from_slice(digits.as_bytes())?;
    Ok(())
}

fn add_spaced(alloc: Global, text: &mut Vec<u8>, number: u64) -> Result<(), NoMemory>
    ensures { OnOk result (text.new.items ≡ text.old.items ++ spaced number) }
{
    text.push(b' ')?;
    add_number(alloc, text, number)
}

fn add_value(alloc: Global, text: &mut Vec<u8>, value: i64) -> Result<(), NoMemory>
    ensures adds { OnOk result (text.new.items ≡ text.old.items ++ signed_decimal value) }
    ensures fits { OnOk result (IsValue value) }
{
    let digits = value.to_string(alloc)?;
    text.extend_from_slice(digits.as_bytes())?;
    Ok(())
}

fn digit(number: u8) -> u8
    requires { number < 16 }
    ensures { result ≡ hex_digit number }
{
    if number < 10 {
        b'0' + number
    } else {
        b'a' + (number - 10)
    }
}

fn add_digits(text: &mut Vec<u8>, bytes: &[u8]) -> Result<(), NoMemory>
    ensures adds { OnOk result (text.new.items ≡ text.old.items ++ hex_digits bytes.now) }
    ensures fits { OnOk result (AreBytes bytes.now) }
{
    for byte in bytes {
        text.push(digit(*byte / 16))?;
        text.push(digit(*byte % 16))?;
    }
    Ok(())
}

fn add_bytes(text: &mut Vec<u8>, bytes: &[u8]) -> Result<(), NoMemory>
    ensures adds { OnOk result (text.new.items ≡ text.old.items ++ hex_of bytes.now) }
    ensures fits { OnOk result (AreBytes bytes.now) }
{
    match bytes {
        [] => {
            text.push(b'-')?;
            Ok(())
        }
        _ => add_digits(text, bytes),
    }
}

fn add_offer(alloc: Global, text: &mut Vec<u8>, link: u32, number: u64) -> Result<(), NoMemory>
    ensures adds { OnOk result (text.new.items ≡ text.old.items ++ offer_name link number) }
    ensures fits { OnOk result (IsOffer link number) }
{
    add_number(alloc, text, u64::from(link))?;
    add_spaced(alloc, text, number)
}

fn add_ints(alloc: Global, text: &mut Vec<u8>, ints: &[i64]) -> Result<(), NoMemory>
    ensures adds { OnOk result (text.new.items ≡ text.old.items ++ ints_text ints.now) }
    ensures fits { OnOk result (All IsValue ints.now) }
{
    for int in ints {
        text.push(b' ')?;
        add_value(alloc, text, *int)?;
    }
    Ok(())
}

fn add_message(
    alloc: Global,
    text: &mut Vec<u8>,
    version: Version,
    message: &Message,
) -> Result<(), NoMemory>
    ensures adds { OnOk result (text.new.items ≡ text.old.items ++ message_text version message.now) }
    ensures fits { OnOk result (IsMessage message.now) }
{
    let ints = message.as_slice();
    match version {
        Version::First => add_ints(alloc, text, ints),
        Version::Second => {
            add_spaced(alloc, text, ints.len() as u64)?;
            add_ints(alloc, text, ints)
        }
    }
}

fn add_payload(
    alloc: Global,
    text: &mut Vec<u8>,
    version: Version,
    payload: &Payload,
) -> Result<(), NoMemory>
    ensures adds { OnOk result (text.new.items ≡ text.old.items ++ payload_text version payload.now) }
    ensures fits { OnOk result (IsPayload payload.now) }
{
    match payload {
        Payload::Int(message) => {
            text.extend_from_slice(version.offered_word())?;
            add_message(alloc, text, version, message)
        }
        Payload::Read { file, from, len } => {
            text.extend_from_slice(b" read ")?;
            add_number(alloc, text, u64::from(*file))?;
            add_spaced(alloc, text, u64::from(*from))?;
            add_spaced(alloc, text, u64::from(*len))
        }
        Payload::Write { file, from, bytes } => {
            text.extend_from_slice(b" write ")?;
            add_number(alloc, text, u64::from(*file))?;
            add_spaced(alloc, text, u64::from(*from))?;
            text.push(b' ')?;
            add_bytes(text, bytes.as_slice())
        }
    }
}

fn add_answer(alloc: Global, text: &mut Vec<u8>, answer: &Answer) -> Result<(), NoMemory>
    ensures adds { OnOk result (text.new.items ≡ text.old.items ++ answer_text answer.now) }
    ensures fits { OnOk result (IsAnswer answer.now) }
{
    match answer {
        Answer::Bytes(bytes) => {
            text.extend_from_slice(b" bytes ")?;
            add_bytes(text, bytes.as_slice())
        }
        Answer::Count(count) => {
            text.extend_from_slice(b" count ")?;
            add_number(alloc, text, u64::from(*count))
        }
        Answer::Fault(count) => {
            text.extend_from_slice(b" fault ")?;
            add_number(alloc, text, u64::from(*count))
        }
    }
}

fn add_event(
    alloc: Global,
    text: &mut Vec<u8>,
    version: Version,
    event: &Event,
) -> Result<(), NoMemory>
    ensures adds { OnOk result (text.new.items ≡ text.old.items ++ event_text version event.now) }
    ensures fits { OnOk result (IsEvent event.now) }
{
    match *event {
        Event::Offer {
            link,
            number,
            ref payload,
        } => {
            text.extend_from_slice(b" offer ")?;
            add_offer(alloc, text, link, number)?;
            add_payload(alloc, text, version, payload)
        }
        Event::Withdraw { link, number } => {
            text.extend_from_slice(b" withdraw ")?;
            add_offer(alloc, text, link, number)
        }
        Event::Know { link, number } => {
            text.extend_from_slice(b" know ")?;
            add_offer(alloc, text, link, number)
        }
        Event::Room { link, number } => {
            text.extend_from_slice(b" room ")?;
            add_offer(alloc, text, link, number)
        }
        Event::Got {
            link,
            number,
            ref value,
        } => {
            text.extend_from_slice(b" got ")?;
            add_offer(alloc, text, link, number)?;
            text.extend_from_slice(version.got_word())?;
            add_message(alloc, text, version, value)
        }
        Event::Pass { link, number } => {
            text.extend_from_slice(b" pass ")?;
            add_offer(alloc, text, link, number)
        }
        Event::Did {
            link,
            number,
            ref answer,
        } => {
            text.extend_from_slice(b" did ")?;
            add_offer(alloc, text, link, number)?;
            add_answer(alloc, text, answer)
        }
        Event::Reply {
            link,
            number,
            ref answer,
        } => {
            text.extend_from_slice(b" reply ")?;
            add_offer(alloc, text, link, number)?;
            add_answer(alloc, text, answer)
        }
    }
}

fn add_title(text: &mut Vec<u8>, version: Version) -> Result<(), NoMemory>
    ensures { OnOk result (text.new.items ≡ text.old.items ++ joined (title version ∷ [])) }
{
    text.extend_from_slice(version.title())?;
    text.push(b'\n')?;
    Ok(())
}

fn add_steps(alloc: Global, text: &mut Vec<u8>, steps: u64) -> Result<(), NoMemory>
    ensures { OnOk result (text.new.items ≡ text.old.items ++ joined (steps_line steps ∷ [])) }
{
    text.extend_from_slice(b"steps ")?;
    add_number(alloc, text, steps)?;
    text.push(b'\n')?;
    Ok(())
}

fn add_file(alloc: Global, text: &mut Vec<u8>, number: u64, bytes: &[u8]) -> Result<(), NoMemory>
    ensures adds { OnOk result (text.new.items ≡ text.old.items ++ joined (file_line number bytes.now ∷ [])) }
    ensures fits { OnOk result (AreBytes bytes.now) }
{
    text.extend_from_slice(b"file ")?;
    add_number(alloc, text, number)?;
    text.push(b' ')?;
    add_bytes(text, bytes)?;
    text.push(b'\n')?;
    Ok(())
}

fn add_entry(
    alloc: Global,
    text: &mut Vec<u8>,
    version: Version,
    stamped: &Stamped,
) -> Result<(), NoMemory>
    ensures adds { OnOk result (text.new.items ≡ text.old.items ++ joined (entry_line version stamped.now ∷ [])) }
    ensures fits { OnOk result (EntryFits stamped.now) }
{
    add_number(alloc, text, stamped.entry.stamp)?;
    add_spaced(alloc, text, u64::from(stamped.party))?;
    add_spaced(alloc, text, stamped.entry.turn)?;
    add_event(alloc, text, version, &stamped.entry.event)?;
    text.push(b'\n')?;
    Ok(())
}

// How a core ended, its steps, and its output.
fn add_outcome(alloc: Global, text: &mut Vec<u8>, end: &TraceEnd) -> Result<(), NoMemory>
    ensures adds { OnOk result (text.new.items ≡ text.old.items ++ outcome_text end.now) }
    ensures fits { OnOk result (IsEnd end.now) }
{
    text.extend_from_slice(end_word(end.word).as_bytes())?;
    add_spaced(alloc, text, end.steps)?;
    text.push(b' ')?;
    add_bytes(text, end.output.as_slice())
}

fn add_end(alloc: Global, text: &mut Vec<u8>, number: u64, end: &TraceEnd) -> Result<(), NoMemory>
    ensures adds { OnOk result (text.new.items ≡ text.old.items ++ joined (end_line number end.now ∷ [])) }
    ensures fits { OnOk result (IsEnd end.now) }
{
    text.extend_from_slice(b"end ")?;
    add_number(alloc, text, number)?;
    text.push(b' ')?;
    add_outcome(alloc, text, end)?;
    text.push(b'\n')?;
    Ok(())
}

// The text is within the limit so far.
fn check(text: &[u8]) -> Result<(), WriteFault>
    ensures adds { Adds text.now text.now [] result }
    ensures short { OnOk result (length text.now ≤ trace_limit) }
{
    if text.len() > MOST_BYTES {
        return Err(WriteFault::TooLong);
    }
    Ok(())
}

fn add_files(alloc: Global, text: &mut Vec<u8>, files: &[Bytes]) -> Result<(), WriteFault>
    ensures adds { Adds text.old.items text.new.items (joined (file_lines 0 files.now)) result }
    ensures fits { OnOk result (All AreBytes files.now) }
{
    for (number, bytes) in files.iter().enumerate() {
        check(text.as_slice())?;
        add_file(alloc, text, number as u64, bytes.as_slice())?;
    }
    Ok(())
}

fn add_entries(
    alloc: Global,
    text: &mut Vec<u8>,
    version: Version,
    entries: &[Stamped],
) -> Result<(), WriteFault>
    ensures adds { Adds text.old.items text.new.items (joined (entry_lines version entries.now)) result }
    ensures fits { OnOk result (All EntryFits entries.now) }
{
    for entry in entries {
        check(text.as_slice())?;
        add_entry(alloc, text, version, entry)?;
    }
    Ok(())
}

fn add_ends(alloc: Global, text: &mut Vec<u8>, ends: &[TraceEnd]) -> Result<(), WriteFault>
    ensures adds { Adds text.old.items text.new.items (joined (end_lines 0 ends.now)) result }
    ensures fits { OnOk result (All IsEnd ends.now) }
{
    for (number, end) in ends.iter().enumerate() {
        check(text.as_slice())?;
        add_end(alloc, text, number as u64, end)?;
    }
    Ok(())
}

/// The text of a trace, where it has at most 268,435,456 bytes.
///
/// It takes time in proportion to what it writes, and stops behind the first line over the limit.
pub fn write_trace(alloc: Global, trace: &Trace) -> Result<Bytes, WriteFault>
    ensures writes { Writes trace.now result }
    ensures fits { OnOk result (NumbersFit trace.now) }
{
    let version = version_of(trace);
    let mut text = Vec::new(alloc);
    add_title(&mut text, version)?;
    add_steps(alloc, &mut text, trace.steps)?;
    add_files(alloc, &mut text, trace.start.as_slice())?;
    add_entries(alloc, &mut text, version, trace.entries.as_slice())?;
    add_ends(alloc, &mut text, trace.ends.as_slice())?;
    check(text.as_slice())?;
    Ok(List::from_vec(text))
}
