//! What the words of a command line ask for.

ghost use Rattle.std.specs.Prelude.{◌≡◌, ◌≤◌, ℕ, map, string_bytes, IsNone, IfSome};
ghost use Rattle.ac_words.specs.Words.{IsNumber};
ghost use Rattle.merge_program.specs.Words.{IsCount, IsCall};

// The most messages of a producer.
const MOST_MESSAGES: u32 = 10_000;

// The most producers.
const MOST_PRODUCERS: u32 = 8;

// How many digits a number may have.
const DIGITS: usize = 7;

/// So many messages of each of so many producers.
#[derive(Clone, Copy, Debug, PartialEq, Eq)]
pub(crate) struct Call {
    pub(crate) messages: u32,
    pub(crate) producers: u32,
}

// Reads a number from 1 to a limit: decimal digits, of which the first is not 0.
fn read_within(word: &[u8], most: u32) -> Option<u32>
    ensures none { IsNone result → (number : ℕ) → IsNumber word.now number → 1 ≤ number → number ≤ most → ⊥ }
    ensures some { IfSome result (λ number. IsNumber word.now number × ((1 ≤ number) × (number ≤ most))) }
{
    if word.len() > DIGITS || word.first() == Some(&b'0') {
        return None;
    }
    let mut value: u32 = 0;
    for digit in word {
        if *digit < b'0' || *digit > b'9' {
            return None;
        }
        value = value * 10 + u32::from(*digit - b'0');
    }
    // It is 0 where there was no digit.
    if value == 0 || value > most {
        return None;
    }
    Some(value)
}

/// Reads the words after the program's name: how many messages, from 1 to 10,000, and of how many
/// producers, from 1 to 8. It gives none exactly where they are not of this form.
pub(crate) fn read_words(words: &[String]) -> Option<Call>
    ensures usage { IsNone result → (n w : ℕ) → IsCall (map string_bytes words.now) n w → ⊥ }
    ensures call { IfSome result (λ call. IsCall (map string_bytes words.now) call.messages call.producers) }
{
    let [first, second] = words else {
        return None;
    };
    let messages = read_within(first.as_bytes(), MOST_MESSAGES)?;
    let producers = read_within(second.as_bytes(), MOST_PRODUCERS)?;
    Some(Call {
        messages,
        producers,
    })
}
