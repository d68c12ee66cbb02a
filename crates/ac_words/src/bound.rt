//! Numbers, as words give them.

ghost use Rattle.std.specs.Prelude.{◌≡◌, ◌≤◌, ℕ, IsNone, IfSome};
ghost use Rattle.ac_words.specs.Words.{IsNumber, IsBound, IsTurns};

/// The greatest bound on steps.
const MOST_STEPS: u32 = 2_000_000;

/// The greatest number of turns.
const MOST_TURNS: u32 = 500;

// How many digits a number may have.
const DIGITS: usize = 7;

// Reads a number from 1 to a limit: 1 to 7 decimal digits, of which the first is not 0.
fn read_within(word: &[u8], most: u32) -> Option<u32>
    ensures none { IsNone result → (number : ℕ) → IsNumber word.now number → 1 ≤ number → number ≤ most → ⊥ }
    ensures some { IfSome result (λ number. IsNumber word.now number × ((1 ≤ number) × (number ≤ most))) }
{
    if word.len() > DIGITS || word.first() == Some(&b'0') {
        return None;
    }
    let mut value: u32 = 0;
    for digit in word {
        if *digit < b'0' || *digit > b'9' {
            return None;
        }
        value = value * 10 + u32::from(*digit - b'0');
    }
    // It is 0 where there was no digit.
    if value == 0 || value > most {
        return None;
    }
    Some(value)
}

/// Reads a bound on steps, a number from 1 to 2,000,000. It gives none exactly where the bytes are not
/// of this form.
pub fn read_bound(word: &[u8]) -> Option<u32>
    ensures none { IsNone result → (steps : ℕ) → IsBound word.now steps → ⊥ }
    ensures some { IfSome result (IsBound word.now) }
{
    read_within(word, MOST_STEPS)
}

/// Reads how many turns, a number from 1 to 500. It gives none exactly where the bytes are not of this
/// form.
pub fn read_turns(word: &[u8]) -> Option<u32>
    ensures none { IsNone result → (turns : ℕ) → IsTurns word.now turns → ⊥ }
    ensures some { IfSome result (IsTurns word.now) }
{
    read_within(word, MOST_TURNS)
}
