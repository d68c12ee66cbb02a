//! The words of a command line.

ghost use Rattle.std.specs.Prelude.{◌≡◌, ◌↔◌, ℕ, List, [], ◌∷◌, map, string_bytes, IsNone, IsTrue, IfSome};
ghost use Rattle.ac_words.specs.Words.{IsPlain};
ghost use Rattle.ac_replay.specs.Words.{IsCall, IsNoCall};
ghost use Rattle.ac_replay.specs.inner.Calling.{IsOnlyCall};

/// The two operands of a call.
#[derive(Clone, Copy)]
pub struct Pair<'a> {
    pub file: &'a str,
    pub trace: &'a str,
}

// Whether a word does not start with `-`.
fn is_plain(word: &str) -> bool
    ensures { IsTrue result ↔ IsPlain word.now }
{
    word.as_bytes().first() != Some(&b'-')
}

fn two<'a>(first: &'a str, second: &'a str) -> Option<Pair<'a>>
    ensures none { IsNone result → IsNoCall (first.now ∷ second.now ∷ []) }
    ensures some { IfSome result (λ pair. IsCall (first.now ∷ second.now ∷ []) pair.file.now pair.trace.now) }
    ensures only { IfSome result (λ pair. IsOnlyCall (first.now ∷ second.now ∷ []) pair.file.now pair.trace.now) }
{
    if is_plain(first) && is_plain(second) {
        Some(Pair {
            file: first,
            trace: second,
        })
    } else {
        None
    }
}

// One of three words is `--`, after which every word is an operand.
fn three<'a>(first: &'a str, second: &'a str, third: &'a str) -> Option<Pair<'a>>
    ensures none { IsNone result → IsNoCall (first.now ∷ second.now ∷ third.now ∷ []) }
    ensures some { IfSome result (λ pair. IsCall (first.now ∷ second.now ∷ third.now ∷ []) pair.file.now pair.trace.now) }
    ensures only { IfSome result (λ pair. IsOnlyCall (first.now ∷ second.now ∷ third.now ∷ []) pair.file.now pair.trace.now) }
{
    if first == "--" && second != "-" && third != "-" {
        return Some(Pair {
            file: second,
            trace: third,
        });
    }
    if is_plain(first) && second == "--" && third != "-" {
        return Some(Pair {
            file: first,
            trace: third,
        });
    }
    if is_plain(first) && is_plain(second) && third == "--" {
        return Some(Pair {
            file: first,
            trace: second,
        });
    }
    None
}

/// Reads the words after the program's name: a file and the file of a trace. It gives none exactly
/// where they are not of this form.
pub fn read_pair(words: &[String]) -> Option<Pair<'_>>
    ensures none { IsNone result → IsNoCall (map string_bytes words.now) }
    ensures some { IfSome result (λ pair. IsCall (map string_bytes words.now) pair.file.now pair.trace.now) }
    ensures only { IfSome result (λ pair. IsOnlyCall (map string_bytes words.now) pair.file.now pair.trace.now) }
{
    match words {
        [first, second] => two(first.as_str(), second.as_str()),
        [first, second, third] => three(first.as_str(), second.as_str(), third.as_str()),
        _ => None,
    }
}
