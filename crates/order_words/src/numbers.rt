//! Numbers, as words give them.

ghost use Rattle.std.specs.Prelude.{◌≡◌, ℕ, List, false, IsNone, IfSome, IfOk, IsTrue};
ghost use Rattle.order_words.specs.Words.{IsNumber, IsNumbers, IsOfNumbers};
ghost use Rattle.order_words.specs.inner.Counting.{GoesOn};

use ac_base::{List, NoMemory};
use std::alloc::Global;

// How many digits a number may have.
const DIGITS: usize = 9;

/// Reads a number: 1 to 9 decimal digits, of which the first is not 0 where there are more. It gives none
/// exactly where the bytes are not of this form.
pub fn read_number(word: &[u8]) -> Option<u32>
    ensures none { IsNone result → (number : ℕ) → IsNumber word.now number → ⊥ }
    ensures some { IfSome result (IsNumber word.now) }
{
    if word.is_empty() || word.len() > DIGITS {
        return None;
    }
    if word.len() > 1 && word[0] == b'0' {
        return None;
    }
    let mut value: u32 = 0;
    for digit in word {
        if *digit < b'0' || *digit > b'9' {
            return None;
        }
        value = value * 10 + u32::from(*digit - b'0');
    }
    Some(value)
}

/// The first of some numbers: the last one, too, or what stands behind the comma after it.
#[derive(Clone, Copy)]
pub enum First<'a> {
    Last { number: u32 },
    More { number: u32, others: &'a str },
}

// Reads the first of some numbers. It gives none only where the text is not numbers.
fn first_of(text: &str) -> Option<First<'_>>
    ensures none { IsNone result → (numbers : List ℕ) → IsNumbers text.now numbers → ⊥ }
    ensures some { IfSome result (GoesOn text.now) }
{
    match text.split_once(',') {
        None => {
            let number = read_number(text.as_bytes())?;
            Some(First::Last { number })
        }
        Some((word, others)) => {
            let number = read_number(word.as_bytes())?;
            Some(First::More { number, others })
        }
    }
}

/// Whether the text is numbers that are joined by commas. It takes no memory.
pub fn are_numbers(text: &str) -> bool
    ensures yes { IsTrue result → IsOfNumbers text.now }
    ensures no { result ≡ false → (numbers : List ℕ) → IsNumbers text.now numbers → ⊥ }
{
    let mut rest = text;
    'looking: loop {
        match first_of(rest) {
            None => return false,
            Some(First::Last { .. }) => return true,
            Some(First::More { others, .. }) => rest = others,
        }
    }
}

/// The numbers of a text that is numbers joined by commas.
pub fn read_numbers(alloc: Global, text: &str) -> Result<List<u32>, NoMemory>
    requires { IsOfNumbers text.now }
    ensures { IfOk result (IsNumbers text.now) }
{
    let mut numbers = List::new(alloc);
    let mut rest = text;
    'taking: loop {
        match first_of(rest) {
            None => return Ok(numbers),
            Some(First::Last { number }) => {
                numbers.push(number)?;
                return Ok(numbers);
            }
            Some(First::More { number, others }) => {
                numbers.push(number)?;
                rest = others;
            }
        }
    }
}
