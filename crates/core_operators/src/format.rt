//! Texts of `printf` with their values.

ghost use Rattle.std.specs.Prelude.{◌≡◌, ◌≤◌, ◌+◌, ℕ, List, ◌∷◌, ◌++◌, false, true, length};
ghost use Rattle.std.specs.Prelude.{nat_le, Ok, Err, IfOk, OnOk, OnErr, if◌then◌else◌};
ghost use Rattle.core_state.specs.Shared.{formatted, formatted_from, output_limit};

use crate::arithmetic::low_byte;
use ac_base::{NoMemory, decimal};
use std::alloc::Global;

// How many bytes a core may print.
const OUTPUT_LIMIT: usize = 4_194_304;

// Whether a `%` was read last, and the values that are still to come.
#[derive(Clone, Copy)]
struct Scan<'a> {
    directive: bool,
    values: &'a [i64],
}

// A byte directly after a `%`.
fn add_directive<'a>(
    alloc: Global,
    output: &mut Vec<u8>,
    values: &'a [i64],
    byte: u8,
) -> Result<&'a [i64], NoMemory>
    ensures ok { IfOk result (λ others. (text : List ℕ) →
        output.new.items ++ formatted_from false text others.now
        ≡ output.old.items ++ formatted_from true (byte ∷ text) values.entry.now) }
    ensures front { (added : List ℕ) × (output.new.items ≡ output.old.items ++ added) }
{
    if byte == b'%' {
        output.push(byte)?;
        return Ok(values);
    }
    match values {
        [] => Ok(values),
        [value, others @ ..] => match byte {
            b'd' => {
                let text = decimal(alloc, *value)?;
                output.extend_from_slice(text.as_slice())?;
                Ok(others)
            }
            b'c' => {
                output.push(low_byte(*value))?;
                Ok(others)
            }
            _ => Ok(values),
        },
    }
}

fn add_byte<'a>(
    alloc: Global,
    output: &mut Vec<u8>,
    scan: Scan<'a>,
    byte: u8,
) -> Result<Scan<'a>, NoMemory>
    ensures ok { IfOk result (λ after. (text : List ℕ) →
        output.new.items ++ formatted_from after.directive text after.values.now
        ≡ output.old.items ++ formatted_from scan.entry.directive (byte ∷ text) scan.entry.values.now) }
    ensures front { (added : List ℕ) × (output.new.items ≡ output.old.items ++ added) }
{
    if scan.directive {
        let values = add_directive(alloc, output, scan.values, byte)?;
        return Ok(Scan {
            directive: false,
            values,
        });
    }
    if byte == b'%' {
        return Ok(Scan {
            directive: true,
            values: scan.values,
        });
    }
    output.push(byte)?;
    Ok(scan)
}

// What was in the output before stays in front of it, also where memory is refused.
fn append_formatted(
    alloc: Global,
    output: &mut Vec<u8>,
    text: &[u8],
    values: &[i64],
) -> Result<(), NoMemory>
    ensures ok { OnOk result (output.new.items ≡ output.old.items ++ formatted text.now values.now) }
    ensures front { (added : List ℕ) × (output.new.items ≡ output.old.items ++ added) }
{
    let mut scan = Scan {
        directive: false,
        values,
    };
    for byte in text {
        scan = add_byte(alloc, output, scan, *byte)?;
    }
    Ok(())
}

/// Whether a text with these values was added, which is so where the output keeps within its
/// limit; else it is as before, and so it is after want of memory.
pub fn add_formatted(
    alloc: Global,
    output: &mut Vec<u8>,
    text: &[u8],
    values: &[i64],
) -> Result<bool, NoMemory>
    ensures fits { IfOk result (λ added. added ≡ nat_le
        (length output.old.items + length (formatted text.now values.now)) output_limit) }
    ensures ok { IfOk result (λ added. output.new.items
        ≡ (if added then output.old.items ++ formatted text.now values.now else output.old.items)) }
    ensures err { OnErr result (output.new.items ≡ output.old.items) }
{
    let before = output.len();
    let done = append_formatted(alloc, output, text, values);
    if done.is_ok() && output.len() <= OUTPUT_LIMIT {
        return Ok(true);
    }
    output.truncate(before);
    done?;
    Ok(false)
}
