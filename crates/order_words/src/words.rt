//! What the words of a command line ask for.

ghost use Rattle.std.specs.Prelude.{◌↔◌, [], ◌∷◌, map, string_bytes, IsNone, IfSome, IsTrue};
ghost use Rattle.ac_words.specs.Words.{IsPlain};
ghost use Rattle.order_words.specs.Words.{Asked, IsCall};
ghost use Rattle.order_words.specs.Called.{AsksFor};
ghost use Rattle.order_words.specs.inner.Operands.{IsQuestion, NoneAsked};

use crate::numbers::{are_numbers, read_number};

/// What is asked of a run.
#[derive(Clone, Copy)]
pub enum Question<'a> {
    /// How one entry stands to another.
    Order { one: u32, other: u32 },
    /// How the cores end at the cut of these counts, which are joined by commas.
    Cut { counts: &'a str },
}

/// What words ask for, of the program of a file and of the run that the trace of another tells.
#[derive(Clone, Copy)]
pub struct Call<'a> {
    pub file: &'a str,
    pub trace: &'a str,
    pub question: Question<'a>,
}

// Whether a word does not begin with `-`.
fn is_plain(word: &str) -> bool
    ensures { IsTrue result ↔ IsPlain word.now }
{
    word.as_bytes().first() != Some(&b'-')
}

fn order_of<'a>(command: &str, one: &str, other: &str) -> Option<Question<'a>>
    ensures none { IsNone result → NoneAsked command.now (one.now ∷ other.now ∷ []) }
    ensures some { IfSome result (IsQuestion command.now (one.now ∷ other.now ∷ [])) }
{
    if command != "order" {
        return None;
    }
    let one = read_number(one.as_bytes())?;
    let other = read_number(other.as_bytes())?;
    Some(Question::Order { one, other })
}

fn cut_of<'a>(command: &str, counts: &'a str) -> Option<Question<'a>>
    ensures none { IsNone result → NoneAsked command.now (counts.now ∷ []) }
    ensures some { IfSome result (IsQuestion command.now (counts.now ∷ [])) }
{
    if command != "cut" || !are_numbers(counts) {
        return None;
    }
    Some(Question::Cut { counts })
}

// What a command asks with these operands behind the two files.
fn question_of<'a>(command: &str, operands: &'a [String]) -> Option<Question<'a>>
    ensures none { IsNone result → NoneAsked command.now (map string_bytes operands.now) }
    ensures some { IfSome result (IsQuestion command.now (map string_bytes operands.now)) }
{
    let (first, others) = operands.split_first()?;
    match others.split_first() {
        None => cut_of(command, first.as_str()),
        Some((second, rest)) => {
            if !rest.is_empty() {
                return None;
            }
            order_of(command, first.as_str(), second.as_str())
        }
    }
}

/// Reads the words after the program's name: `order`, FILE, TRACE and two numbers, or `cut`, FILE, TRACE
/// and numbers that are joined by commas. It gives none exactly where they are not of this form.
pub fn read_words(words: &[String]) -> Option<Call<'_>>
    ensures usage { IsNone result → (asked : Asked) → IsCall (map string_bytes words.now) asked → ⊥ }
    ensures call { IfSome result (AsksFor (map string_bytes words.now)) }
{
    let (command, others) = words.split_first()?;
    let (file, others) = others.split_first()?;
    let (trace, operands) = others.split_first()?;
    if !is_plain(file.as_str()) || !is_plain(trace.as_str()) {
        return None;
    }
    let question = question_of(command.as_str(), operands)?;
    Some(Call {
        file: file.as_str(),
        trace: trace.as_str(),
        question,
    })
}
