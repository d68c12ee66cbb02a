//! What is written of what was received.

ghost use Rattle.std.specs.Prelude.{◌≡◌, ◌++◌, map, length, string_bytes, IfOk, OnOk};
ghost use Rattle.ac_choice.specs.Relaying.{of_end};
ghost use Rattle.merge_program.specs.Lines.{sum_of, values, end_line, total_line, merge_text};

use ac_base::{Bytes, List, NoMemory};
use ac_choice::Tagged;
use std::alloc::Global;

// How many messages have this tag, and their sum.
fn counted(messages: &[Tagged], tag: u32) -> (u64, i128)
    ensures count { result.0 ≡ length (of_end tag messages.now) }
    ensures sum { result.1 ≡ sum_of (of_end tag messages.now) }
{
    let mut count = 0;
    let mut sum = 0;
    for message in messages {
        if message.end == tag {
            count += 1;
            sum += i128::from(message.value);
        }
    }
    (count, sum)
}

// The sum of all messages.
fn total(messages: &[Tagged]) -> i128
    ensures { result ≡ sum_of (values messages.now) }
{
    let mut sum = 0;
    for message in messages {
        sum += i128::from(message.value);
    }
    sum
}

// The line of one producer.
fn end_line(alloc: Global, tag: u32, messages: &[Tagged]) -> Result<String, NoMemory>
    ensures { IfOk result (λ text. string_bytes text ≡ end_line tag messages.now) }
{
    let (count, sum) = counted(messages, tag);
    Ok(format!(in alloc; "{tag}: {count} messages, sum {sum}\n")?)
}

// The last line.
fn total_line(alloc: Global, messages: &[Tagged]) -> Result<String, NoMemory>
    ensures { IfOk result (λ text. string_bytes text ≡ total_line messages.now) }
{
    let sum = total(messages);
    Ok(format!(in alloc; "total {sum}\n")?)
}

/// A line for each of so many producers, and the line of all.
pub(crate) fn merge_text(
    alloc: Global,
    producers: u32,
    messages: &[Tagged],
) -> Result<Bytes, NoMemory>
    ensures { IfOk result (λ text. text ≡ merge_text producers messages.now) }
{
    let mut text = Vec::new(alloc);
    for tag in 0..producers {
        let line = end_line(alloc, tag, messages)?;
        text.extend_from_slice(line.as_bytes())?;
    }
    let last = total_line(alloc, messages)?;
    text.extend_from_slice(last.as_bytes())?;
    Ok(List::from_vec(text))
}
