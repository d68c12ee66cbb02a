//! What a link carries, and the answers to requests.

ghost use Rattle.std.specs.Prelude.{◌≡◌, ◌+◌, ◌&&◌, nat_lt, nat_le};
ghost use Rattle.ac_links.specs.Payloads.{is_message, is_request, is_payload, fits_read, fits_write, answer_fits, message_fits};
ghost use Rattle.ac_links.specs.Payloads.{answer_eq, has_answer};

use ac_base::{Answer, Message, Payload};

/// What a link is for good: how many offers may be unknown, and whether it carries requests.
#[derive(Clone, Copy, Debug)]
pub struct Terms {
    pub capacity: u32,
    pub requests: bool,
}

fn is_message(payload: &Payload) -> bool
    ensures { result ≡ is_message payload.now }
{
    matches!(payload, Payload::Int(_))
}

/// Whether a request of this file, place and length may be made.
fn is_within(file: u32, from: u32, len: u64) -> bool
    ensures { result ≡ (nat_lt file 16 && nat_le len 256 && nat_le (from + len) 1048576) }
{
    file < 16 && len <= 256 && from as u64 + len <= 1_048_576
}

fn is_request(payload: &Payload) -> bool
    ensures { result ≡ is_request payload.now }
{
    match payload {
        Payload::Int(_) => false,
        Payload::Read { file, from, len } => is_within(*file, *from, *len as u64),
        Payload::Write { file, from, bytes } => is_within(*file, *from, bytes.len()),
    }
}

pub fn is_payload(requests: bool, payload: &Payload) -> bool
    ensures { result ≡ is_payload requests payload.now }
{
    if requests {
        is_request(payload)
    } else {
        is_message(payload)
    }
}

pub fn message_fits(payload: &Payload, value: &Message) -> bool
    ensures { result ≡ message_fits value.now payload.now }
{
    match payload {
        Payload::Int(it) => it.equals(value),
        _ => false,
    }
}

fn fits_read(len: u32, answer: &Answer) -> bool
    ensures { result ≡ fits_read len answer.now }
{
    match answer {
        Answer::Bytes(bytes) => bytes.len() <= len as u64,
        Answer::Count(_) => false,
        Answer::Fault(count) => *count == 0,
    }
}

fn fits_write(len: u64, answer: &Answer) -> bool
    ensures { result ≡ fits_write len answer.now }
{
    match answer {
        Answer::Bytes(_) => false,
        Answer::Count(count) => *count as u64 == len,
        Answer::Fault(count) => *count as u64 <= len,
    }
}

pub fn answer_fits(payload: &Payload, answer: &Answer) -> bool
    ensures { result ≡ answer_fits answer.now payload.now }
{
    match payload {
        Payload::Int(_) => false,
        Payload::Read { len, .. } => fits_read(*len, answer),
        Payload::Write { bytes, .. } => fits_write(bytes.len(), answer),
    }
}

fn answer_eq(answer: &Answer, other: &Answer) -> bool
    ensures { result ≡ answer_eq answer.now other.now }
{
    match answer {
        Answer::Bytes(bytes) => match other {
            Answer::Bytes(it) => bytes.as_slice() == it.as_slice(),
            Answer::Count(_) => false,
            Answer::Fault(_) => false,
        },
        Answer::Count(count) => match other {
            Answer::Bytes(_) => false,
            Answer::Count(it) => *count == *it,
            Answer::Fault(_) => false,
        },
        Answer::Fault(count) => match other {
            Answer::Bytes(_) => false,
            Answer::Count(_) => false,
            Answer::Fault(it) => *count == *it,
        },
    }
}

pub fn has_answer(known: &Option<Answer>, answer: &Answer) -> bool
    ensures { result ≡ has_answer answer.now known.now }
{
    match known {
        Some(it) => answer_eq(answer, it),
        None => false,
    }
}
