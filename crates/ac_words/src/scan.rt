//! The words after a command, read one after another.

ghost use Rattle.std.specs.Prelude.{◌≡◌, ◌↔◌, ◌≤◌, ℕ, List, [], ◌∷◌, ◌++◌, length, map, string_bytes, IfSome, IsNone, None};
ghost use Rattle.std.specs.declared.option.Option.{Option};
ghost use Rattle.ac_words.specs.Words.{IsPlain};
ghost use Rattle.ac_words.specs.inner.Scanning.{Completes, CompletesAny, CompletesOperands, IsKind, texts_of};

use crate::bound::read_bound;

/// What the next word may be: an operand or an option, the value of an option, or an operand alone.
#[derive(Clone, Copy)]
pub enum Next {
    Any,
    Value,
    Operand,
}

/// Operands, of which no command has more than two.
#[derive(Clone, Copy)]
pub enum Operands<'a> {
    Zero,
    One(&'a str),
    Two(&'a str, &'a str),
}

/// What the words after a command give: its operands, and a bound on steps, if there is one.
#[derive(Clone, Copy)]
pub struct Arguments<'a> {
    pub operands: Operands<'a>,
    pub steps: Option<u32>,
}

/// What a word is where options may stand.
#[derive(Clone, Copy)]
pub enum WordKind<'a> {
    /// It does not start with `-`.
    Plain,
    /// `--`, after which every word is an operand.
    OnlyOperands,
    /// `--steps`, whose value is the next word.
    Steps,
    /// `--steps=` and a value.
    StepsAre(&'a [u8]),
    /// Any other word that starts with `-`.
    Other,
}

/// What the words so far have given.
#[derive(Clone, Copy)]
pub struct Scan<'a> {
    pub next: Next,
    pub operands: Operands<'a>,
    pub steps: Option<u32>,
}

/// Reads the words after a command. It gives none exactly where they are not two operands at most and
/// at most one bound on steps.
pub fn read_arguments(words: &[String]) -> Option<Arguments<'_>>
    ensures usage { IsNone result → (operands : List (List ℕ)) (given : Option ℕ)
        → CompletesAny [] None (map string_bytes words.now) operands given → ⊥ }
    ensures call { IfSome result (λ found. CompletesAny [] None (map string_bytes words.now) (texts_of found.operands) found.steps) }
    ensures only { IfSome result (λ found. (operands : List (List ℕ)) (given : Option ℕ)
        → CompletesAny [] None (map string_bytes words.now) operands given
        → (operands ≡ texts_of found.operands) × (given ≡ found.steps)) }
{
    let mut scan = Scan {
        next: Next::Any,
        operands: Operands::Zero,
        steps: None,
    };
    for word in words {
        scan = take_word(scan, word.as_str())?;
    }
    finish(scan)
}

// The operands with one more behind them.
fn with<'a>(operands: Operands<'a>, word: &'a str) -> Option<Operands<'a>>
    ensures none { IsNone result → 2 ≤ length (texts_of operands.entry) }
    ensures some { IfSome result (λ more. texts_of more ≡ texts_of operands.entry ++ word.now ∷ []) }
{
    match operands {
        Operands::Zero => Some(Operands::One(word)),
        Operands::One(first) => Some(Operands::Two(first, word)),
        Operands::Two(_, _) => None,
    }
}

fn take_word<'a>(scan: Scan<'a>, word: &'a str) -> Option<Scan<'a>>
    ensures refused { IsNone result → (words operands : List (List ℕ)) (given : Option ℕ)
        → Completes scan.entry (word.now ∷ words) operands given → ⊥ }
    ensures taken { IfSome result (λ after. (words operands : List (List ℕ)) (given : Option ℕ)
        → Completes scan.entry (word.now ∷ words) operands given ↔ Completes after words operands given) }
{
    match scan.next {
        Next::Any => take_any(scan, word),
        Next::Value => {
            let number = read_bound(word.as_bytes())?;
            Some(Scan {
                next: Next::Any,
                steps: Some(number),
                ..scan
            })
        }
        Next::Operand => take_operand(scan, word),
    }
}

// Behind `--`.
fn take_operand<'a>(scan: Scan<'a>, word: &'a str) -> Option<Scan<'a>>
    ensures refused { IsNone result → (words operands : List (List ℕ)) (given : Option ℕ)
        → CompletesOperands (texts_of scan.entry.operands) scan.entry.steps (word.now ∷ words) operands given → ⊥ }
    ensures taken { IfSome result (λ after. (words operands : List (List ℕ)) (given : Option ℕ)
        → CompletesOperands (texts_of scan.entry.operands) scan.entry.steps (word.now ∷ words) operands given
        ↔ Completes after words operands given) }
{
    if word == "-" {
        return None;
    }
    let operands = with(scan.operands, word)?;
    Some(Scan {
        next: Next::Operand,
        operands,
        ..scan
    })
}

// A word that does not start with `-`.
fn take_plain<'a>(scan: Scan<'a>, word: &'a str) -> Option<Scan<'a>>
    requires { IsPlain word.now }
    ensures refused { IsNone result → (words operands : List (List ℕ)) (given : Option ℕ)
        → CompletesAny (texts_of scan.entry.operands) scan.entry.steps (word.now ∷ words) operands given → ⊥ }
    ensures taken { IfSome result (λ after. (words operands : List (List ℕ)) (given : Option ℕ)
        → CompletesAny (texts_of scan.entry.operands) scan.entry.steps (word.now ∷ words) operands given
        ↔ Completes after words operands given) }
{
    let operands = with(scan.operands, word)?;
    Some(Scan {
        next: Next::Any,
        operands,
        ..scan
    })
}

fn take_any<'a>(scan: Scan<'a>, word: &'a str) -> Option<Scan<'a>>
    ensures refused { IsNone result → (words operands : List (List ℕ)) (given : Option ℕ)
        → CompletesAny (texts_of scan.entry.operands) scan.entry.steps (word.now ∷ words) operands given → ⊥ }
    ensures taken { IfSome result (λ after. (words operands : List (List ℕ)) (given : Option ℕ)
        → CompletesAny (texts_of scan.entry.operands) scan.entry.steps (word.now ∷ words) operands given
        ↔ Completes after words operands given) }
{
    match kind_of(word) {
        WordKind::Plain => take_plain(scan, word),
        WordKind::OnlyOperands => Some(Scan {
            next: Next::Operand,
            ..scan
        }),
        WordKind::Steps if scan.steps.is_none() => Some(Scan {
            next: Next::Value,
            ..scan
        }),
        WordKind::StepsAre(value) if scan.steps.is_none() => {
            let number = read_bound(value)?;
            Some(Scan {
                next: Next::Any,
                steps: Some(number),
                ..scan
            })
        }
        _ => None,
    }
}

fn kind_of(word: &str) -> WordKind<'_>
    ensures { IsKind word.now result }
{
    let bytes = word.as_bytes();
    if word == "--" {
        WordKind::OnlyOperands
    } else if word == "--steps" {
        WordKind::Steps
    } else if let Some(value) = bytes.strip_prefix(b"--steps=") {
        WordKind::StepsAre(value)
    } else if bytes.first() == Some(&b'-') {
        WordKind::Other
    } else {
        WordKind::Plain
    }
}

// What is given where no word is left.
fn finish(scan: Scan<'_>) -> Option<Arguments<'_>>
    ensures refused { IsNone result → (operands : List (List ℕ)) (given : Option ℕ) → Completes scan.entry [] operands given → ⊥ }
    ensures call { IfSome result (λ found. Completes scan.entry [] (texts_of found.operands) found.steps) }
    ensures only { IfSome result (λ found. (operands : List (List ℕ)) (given : Option ℕ) → Completes scan.entry [] operands given
        → (operands ≡ texts_of found.operands) × (given ≡ found.steps)) }
{
    match scan.next {
        Next::Value => None,
        _ => Some(Arguments {
            operands: scan.operands,
            steps: scan.steps,
        }),
    }
}
