//! The versions of the text of a trace, and which one a trace takes.

ghost use Rattle.std.specs.Prelude.{◌≡◌};
ghost use Rattle.trace_text.specs.Text.{title, offered_word, got_word};
ghost use Rattle.trace_text.specs.Versions.{is_wide_message, is_wide_payload, is_wide_event, is_wide, version_of};
ghost use Rattle.trace_text.specs.inner.Reading.{is_needless};

use crate::trace::Trace;
use ac_base::{Event, Message, Payload};

/// How messages are spelled.
#[derive(Clone, Copy, Debug)]
pub enum Version {
    /// Each message has one int.
    First,
    /// A message has 1 to 16 ints, and says how many.
    Second,
}

impl Version {
    /// The first line of a text, without its line feed.
    pub fn title(self) -> &'static [u8]
        ensures { result.now ≡ title self }
    {
        match self {
            Version::First => b"ac-trace 1",
            Version::Second => b"ac-trace 2",
        }
    }

    /// The word before the message of an offer.
    pub fn offered_word(self) -> &'static [u8]
        ensures { result.now ≡ offered_word self }
    {
        match self {
            Version::First => b" int",
            Version::Second => b" ints",
        }
    }

    /// The word before a message that was got.
    pub fn got_word(self) -> &'static [u8]
        ensures { result.now ≡ got_word self }
    {
        match self {
            Version::First => b"",
            Version::Second => b" ints",
        }
    }
}

fn is_wide_message(message: &Message) -> bool
    ensures { result ≡ is_wide_message message.now }
{
    message.len() != 1
}

fn is_wide_payload(payload: &Payload) -> bool
    ensures { result ≡ is_wide_payload payload.now }
{
    match payload {
        Payload::Int(message) => is_wide_message(message),
        _ => false,
    }
}

fn is_wide_event(event: &Event) -> bool
    ensures { result ≡ is_wide_event event.now }
{
    match event {
        Event::Offer { payload, .. } => is_wide_payload(payload),
        Event::Got { value, .. } => is_wide_message(value),
        _ => false,
    }
}

fn is_wide(trace: &Trace) -> bool
    ensures { result ≡ is_wide trace.now }
{
    trace
        .entries
        .as_slice()
        .iter()
        .any(|stamped| is_wide_event(&stamped.entry.event))
}

/// The version in which a trace is spelled.
pub fn version_of(trace: &Trace) -> Version
    ensures { result ≡ version_of trace.now }
{
    if is_wide(trace) {
        Version::Second
    } else {
        Version::First
    }
}

/// Whether the trace stands in version 2 where version 1 would do.
pub fn is_needless(version: Version, trace: &Trace) -> bool
    ensures { result ≡ is_needless version trace.now }
{
    match version {
        Version::First => false,
        Version::Second => !is_wide(trace),
    }
}
