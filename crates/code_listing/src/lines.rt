//! The lines of a listing, each from what it tells of.

ghost use Rattle.std.specs.Prelude.{◌≡◌, ◌++◌, ◌∷◌, [], ◌+◌, ◌<◌, ◌^◌, pos, length, IfOk, OnOk};
ghost use Rattle.code_listing.specs.Listing.{instr_name, operands_of, spaced, instr_line, instr_lines, function_line, between, end_before};
ghost use Rattle.code_listing.specs.Listing.{function_lines, core_line, core_lines, text_line, text_lines, listing};

use ac_base::{Bytes, List, Name, NoMemory, decimal, hex};
use stack_code::{Code, Entered, Instr};
use std::alloc::Global;

fn name_of(instr: Instr) -> &'static str
    ensures { result.now ≡ instr_name instr }
{
    match instr {
        Instr::Step => "Step",
        Instr::Push(_) => "Push",
        Instr::Load { .. } => "Load",
        Instr::LoadG { .. } => "LoadG",
        Instr::Store { .. } => "Store",
        Instr::StoreG { .. } => "StoreG",
        Instr::Arr { .. } => "Arr",
        Instr::ArrG { .. } => "ArrG",
        Instr::Elem => "Elem",
        Instr::SetElem => "SetElem",
        Instr::Place => "Place",
        Instr::Clear { .. } => "Clear",
        Instr::Neg => "Neg",
        Instr::Not => "Not",
        Instr::Flip => "Flip",
        Instr::Bool => "Bool",
        Instr::BitOr => "BitOr",
        Instr::BitXor => "BitXor",
        Instr::BitAnd => "BitAnd",
        Instr::Eq => "Eq",
        Instr::Ne => "Ne",
        Instr::Less => "Less",
        Instr::LessEq => "LessEq",
        Instr::More => "More",
        Instr::MoreEq => "MoreEq",
        Instr::Shl => "Shl",
        Instr::Shr => "Shr",
        Instr::Add => "Add",
        Instr::Sub => "Sub",
        Instr::Mul => "Mul",
        Instr::Div => "Div",
        Instr::Rem => "Rem",
        Instr::Drop => "Drop",
        Instr::Jump { .. } => "Jump",
        Instr::Jz { .. } => "Jz",
        Instr::Jnz { .. } => "Jnz",
        Instr::Print { .. } => "Print",
        Instr::Call { .. } => "Call",
        Instr::Ret => "Ret",
        Instr::Enter { .. } => "Enter",
        Instr::Finish { .. } => "Finish",
        Instr::Async { .. } => "Async",
        Instr::End => "End",
        Instr::Cancel { .. } => "Cancel",
        Instr::Yield => "Yield",
        Instr::Send { .. } => "Send",
        Instr::Recv { .. } => "Recv",
        Instr::Read { .. } => "Read",
        Instr::Write { .. } => "Write",
    }
}

// Adds a number behind a space.
fn add_number(alloc: Global, text: &mut Vec<u8>, number: i64) -> Result<(), NoMemory>
    ensures { OnOk result (text.new.items ≡ text.old.items ++ spaced (number ∷ [])) }
{
    let digits = decimal(alloc, number)?;
    text.push(b' ')?;
    text.extend_from_slice(digits.as_slice())?;
    Ok(())
}

fn add_one(alloc: Global, text: &mut Vec<u8>, number: u32) -> Result<(), NoMemory>
    ensures { OnOk result (text.new.items ≡ text.old.items ++ spaced (pos number ∷ [])) }
{
    add_number(alloc, text, i64::from(number))
}

fn add_two(alloc: Global, text: &mut Vec<u8>, first: u32, second: u32) -> Result<(), NoMemory>
    ensures { OnOk result (text.new.items ≡ text.old.items ++ spaced (pos first ∷ pos second ∷ [])) }
{
    add_one(alloc, text, first)?;
    add_one(alloc, text, second)
}

fn add_three(
    alloc: Global,
    text: &mut Vec<u8>,
    first: u32,
    second: u32,
    third: u32,
) -> Result<(), NoMemory>
    ensures { OnOk result (text.new.items ≡ text.old.items ++ spaced (pos first ∷ pos second ∷ pos third ∷ [])) }
{
    add_one(alloc, text, first)?;
    add_two(alloc, text, second, third)
}

fn add_operands(alloc: Global, text: &mut Vec<u8>, instr: Instr) -> Result<(), NoMemory>
    ensures { OnOk result (text.new.items ≡ text.old.items ++ spaced (operands_of instr)) }
{
    match instr {
        Instr::Push(value) => add_number(alloc, text, value),
        Instr::Load { level, slot } => add_two(alloc, text, level, slot),
        Instr::LoadG { slot } => add_one(alloc, text, slot),
        Instr::Store { level, slot } => add_two(alloc, text, level, slot),
        Instr::StoreG { slot } => add_one(alloc, text, slot),
        Instr::Arr { level, slot, len } => add_three(alloc, text, level, slot, len),
        Instr::ArrG { slot, len } => add_two(alloc, text, slot, len),
        Instr::Clear { slot, len } => add_two(alloc, text, slot, len),
        Instr::Jump { to } => add_one(alloc, text, to),
        Instr::Jz { to } => add_one(alloc, text, to),
        Instr::Jnz { to } => add_one(alloc, text, to),
        Instr::Print {
            text: number,
            count,
        } => add_two(alloc, text, number, count),
        Instr::Call { function, count } => add_two(alloc, text, function, count),
        Instr::Enter { slot } => add_one(alloc, text, slot),
        Instr::Finish { slot } => add_one(alloc, text, slot),
        Instr::Async { slots, to } => add_two(alloc, text, slots, to),
        Instr::Cancel { level, slot } => add_two(alloc, text, level, slot),
        Instr::Send { channel } => add_one(alloc, text, channel),
        Instr::Recv { channel } => add_one(alloc, text, channel),
        Instr::Read { file } => add_one(alloc, text, file),
        Instr::Write { file } => add_one(alloc, text, file),
        _ => Ok(()),
    }
}

fn add_instr(alloc: Global, text: &mut Vec<u8>, at: u32, instr: Instr) -> Result<(), NoMemory>
    ensures { OnOk result (text.new.items ≡ text.old.items ++ instr_line at instr) }
{
    let address = decimal(alloc, i64::from(at))?;
    text.extend_from_slice(address.as_slice())?;
    text.push(b' ')?;
    text.extend_from_slice(name_of(instr).as_bytes())?;
    add_operands(alloc, text, instr)?;
    text.push(b'\n')?;
    Ok(())
}

// Adds the instructions of which the first stands at this address.
fn add_instrs(
    alloc: Global,
    text: &mut Vec<u8>,
    from: u32,
    instrs: &[Instr],
) -> Result<(), NoMemory>
    requires { from + length instrs.now < 2 ^ 32 }
    ensures { OnOk result (text.new.items ≡ text.old.items ++ instr_lines from instrs.now) }
{
    for (place, instr) in instrs.iter().enumerate() {
        add_instr(alloc, text, from + place as u32, *instr)?;
    }
    Ok(())
}

// The instructions from one address up to another.
fn within(instrs: &[Instr], from: u32, to: usize) -> &[Instr]
    requires { length instrs.now < 2 ^ 32 }
    ensures same { result.now ≡ between from to instrs.now }
    ensures few { from + length result.now < 2 ^ 32 }
{
    let begin = (from as usize).min(instrs.len());
    let end = to.clamp(begin, instrs.len());
    &instrs[begin..end]
}

fn add_head(alloc: Global, text: &mut Vec<u8>, function: &Entered) -> Result<(), NoMemory>
    ensures { OnOk result (text.new.items ≡ text.old.items ++ function_line function.now) }
{
    let words = decimal(alloc, i64::from(function.words))?;
    text.extend_from_slice(b"function ")?;
    text.extend_from_slice(function.name.as_slice())?;
    text.extend_from_slice(b" words ")?;
    text.extend_from_slice(words.as_slice())?;
    text.push(b'\n')?;
    Ok(())
}

// Where the function before these ends.
fn end_before(functions: &[Entered], instrs: &[Instr]) -> usize
    ensures { result ≡ end_before functions.now instrs.now }
{
    match functions.first() {
        Some(next) => next.at as usize,
        None => instrs.len(),
    }
}

fn add_functions(
    alloc: Global,
    text: &mut Vec<u8>,
    functions: &[Entered],
    instrs: &[Instr],
) -> Result<(), NoMemory>
    requires { length instrs.now < 2 ^ 32 }
    ensures { OnOk result (text.new.items ≡ text.old.items ++ function_lines functions.now instrs.now) }
{
    for (place, function) in functions.iter().enumerate() {
        let to = end_before(&functions[place + 1..], instrs);
        add_head(alloc, text, function)?;
        add_instrs(alloc, text, function.at, within(instrs, function.at, to))?;
    }
    Ok(())
}

fn add_core(alloc: Global, text: &mut Vec<u8>, name: &[u8], entry: u32) -> Result<(), NoMemory>
    ensures { OnOk result (text.new.items ≡ text.old.items ++ core_line name.now entry) }
{
    let entry = decimal(alloc, i64::from(entry))?;
    text.extend_from_slice(b"core ")?;
    text.extend_from_slice(name)?;
    text.push(b' ')?;
    text.extend_from_slice(entry.as_slice())?;
    text.push(b'\n')?;
    Ok(())
}

fn add_cores(
    alloc: Global,
    text: &mut Vec<u8>,
    names: &[Name],
    entries: &[u32],
) -> Result<(), NoMemory>
    requires { length names.now ≡ length entries.now }
    ensures { OnOk result (text.new.items ≡ text.old.items ++ core_lines names.now entries.now) }
{
    for (place, name) in names.iter().enumerate() {
        add_core(alloc, text, name.as_slice(), entries[place])?;
    }
    Ok(())
}

fn add_text(alloc: Global, text: &mut Vec<u8>, number: usize, bytes: &[u8]) -> Result<(), NoMemory>
    requires { number < 2 ^ 63 }
    ensures { OnOk result (text.new.items ≡ text.old.items ++ text_line number bytes.now) }
{
    let number = decimal(alloc, number as i64)?;
    text.extend_from_slice(b"text ")?;
    text.extend_from_slice(number.as_slice())?;
    text.push(b' ')?;
    text.extend_from_slice(hex(alloc, bytes)?.as_slice())?;
    text.push(b'\n')?;
    Ok(())
}

fn add_texts(alloc: Global, text: &mut Vec<u8>, texts: &[Bytes]) -> Result<(), NoMemory>
    ensures { OnOk result (text.new.items ≡ text.old.items ++ text_lines 0 texts.now) }
{
    for (number, bytes) in texts.iter().enumerate() {
        add_text(alloc, text, number, bytes.as_slice())?;
    }
    Ok(())
}

/// The listing of a code: a line `core NAME F` for each core, with the number of the function that
/// it enters; for each function a line `function NAME words W` and a line for each of its
/// instructions, with its address, its name and its operands; and for each text of `Print` a line
/// `text T HEX`.
///
/// It takes time in proportion to what it writes.
pub fn listing(alloc: Global, code: &Code) -> Result<Bytes, NoMemory>
    ensures { IfOk result (λ text. text ≡ listing code.now) }
{
    let mut text = Vec::new(alloc);
    let instrs = code.instrs();
    add_cores(alloc, &mut text, code.names().as_slice(), code.entries())?;
    add_functions(alloc, &mut text, code.functions(), instrs)?;
    add_texts(alloc, &mut text, code.texts())?;
    Ok(List::from_vec(text))
}
