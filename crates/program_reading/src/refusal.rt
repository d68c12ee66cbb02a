//! Why a source is not run.

ghost use Rattle.std.specs.Prelude.{◌≡◌, ◌≢◌, IfOk};
ghost use Rattle.program_reading.specs.Lines.{place_line, rule_line, refusal_line, refusal_status};
ghost use Rattle.program_reading.specs.declared.refusal.Stop.TheVariants as s;
ghost use Rattle.program_reading.specs.inner.Parts.{lex_stop, syntax_stop, check_stop};

use ac_base::{Bytes, List, NoMemory, decimal};
use ac_lexer::LexFault;
use ac_parser::SyntaxFault;
use ac_types::CheckFault;
use std::alloc::Global;

/// The line of a source that is too long.
pub const LIMIT_SOURCE: &str = "limit: source\n";

/// The line of a trace whose text is too long.
pub const LIMIT_TRACE: &str = "limit: trace\n";

/// The line where all cores together may go too many steps.
pub const LIMIT_STEPS: &str = "limit: steps\n";

/// A rule that a program breaks, by its number, and the first byte of the part that breaks it.
#[derive(Clone, Copy, Debug, PartialEq, Eq)]
pub struct BrokenRule {
    pub rule: u8,
    pub at: u32,
}

/// What refuses a source. A place counts the bytes of the source from 0.
#[derive(Clone, Copy, Debug, PartialEq, Eq)]
pub enum Refusal {
    /// More than 1,048,576 bytes.
    TooLong,
    /// A byte that may not stand there.
    BadByte { at: u32 },
    /// A number over 9,223,372,036,854,775,807.
    NumberTooLarge { at: u32 },
    /// A comment without an end.
    OpenComment { at: u32 },
    /// A text without a closing quote on its line.
    OpenText { at: u32 },
    /// A token with which no program goes on, or the end of the source where none ends.
    Unexpected { at: u32 },
    /// A token that is nested more than 256 deep.
    TooDeep { at: u32 },
    /// The least of the rules that the program breaks.
    Broken(BrokenRule),
    /// All cores together may go more than 4,000,000 steps.
    TooManySteps,
}

/// Why the work on a source stops before its report.
#[derive(Clone, Copy, Debug, PartialEq, Eq)]
pub enum Stop {
    Refused(Refusal),
    /// Memory was refused.
    NoMemory,
}

impl From<NoMemory> for Stop {
    ghost from_gives = { λ _ e. e ≡ s.NoMemory };

    fn from(_: NoMemory) -> Stop {
        Stop::NoMemory
    }
}

impl From<LexFault> for Stop {
    ghost from_gives = { λ fault stop. stop ≡ lex_stop fault };

    fn from(fault: LexFault) -> Stop {
        match fault {
            LexFault::TooLong => Stop::Refused(Refusal::TooLong),
            LexFault::BadByte { at } => Stop::Refused(Refusal::BadByte { at }),
            LexFault::NumberTooLarge { at } => Stop::Refused(Refusal::NumberTooLarge { at }),
            LexFault::OpenComment { at } => Stop::Refused(Refusal::OpenComment { at }),
            LexFault::OpenText { at } => Stop::Refused(Refusal::OpenText { at }),
            LexFault::NoMemory => Stop::NoMemory,
        }
    }
}

impl From<SyntaxFault> for Stop {
    ghost from_gives = { λ fault stop. stop ≡ syntax_stop fault };

    fn from(fault: SyntaxFault) -> Stop {
        match fault {
            SyntaxFault::Unexpected { at } => Stop::Refused(Refusal::Unexpected { at }),
            SyntaxFault::TooDeep { at } => Stop::Refused(Refusal::TooDeep { at }),
            SyntaxFault::NoMemory => Stop::NoMemory,
        }
    }
}

impl From<CheckFault> for Stop {
    ghost from_gives = { λ fault stop. stop ≡ check_stop fault };

    fn from(fault: CheckFault) -> Stop {
        match fault {
            CheckFault::Broken { rule, at } => Stop::Refused(Refusal::Broken(BrokenRule {
                rule,
                at,
            })),
            CheckFault::NoMemory => Stop::NoMemory,
        }
    }
}

/// Words and a number.
pub fn place_line(alloc: Global, words: &[u8], at: u64) -> Result<Bytes, NoMemory>
    ensures { IfOk result (λ line. line ≡ place_line words.now at) }
{
    let at = at.to_string(alloc)?;
    let mut line = Vec::from_slice(alloc, words)?;
    line.extend_from_slice(at.as_bytes())?;
    line.push(b'\n')?;
    Ok(List::from_vec(line))
}

fn rule_line(alloc: Global, rule: BrokenRule) -> Result<Bytes, NoMemory>
    ensures { IfOk result (λ line. line ≡ rule_line rule) }
{
    let number = decimal(alloc, i64::from(rule.rule))?;
    let at = decimal(alloc, i64::from(rule.at))?;
    let mut line = Vec::from_slice(alloc, b"rule C")?;
    line.extend_from_slice(number.as_slice())?;
    line.extend_from_slice(b" at ")?;
    line.extend_from_slice(at.as_slice())?;
    line.push(b'\n')?;
    Ok(List::from_vec(line))
}

impl Refusal {
    /// The status of a call that ends with it.
    pub fn status(self) -> u8
        ensures number { result ≡ refusal_status self }
        ensures other { (result ≢ 1) × ((result ≢ 7) × ((result ≢ 8) × ((result ≢ 9) × (result ≢ 11)))) }
    {
        match self {
            Refusal::TooLong => 10,
            Refusal::BadByte { .. } => 2,
            Refusal::NumberTooLarge { .. } => 2,
            Refusal::OpenComment { .. } => 2,
            Refusal::OpenText { .. } => 2,
            Refusal::Unexpected { .. } => 2,
            Refusal::TooDeep { .. } => 10,
            Refusal::Broken(_) => 3,
            Refusal::TooManySteps => 10,
        }
    }

    /// The line that tells it.
    pub fn line(self, alloc: Global) -> Result<Bytes, NoMemory>
        ensures { IfOk result (λ line. line ≡ refusal_line self) }
    {
        match self {
            Refusal::TooLong => Ok(List::from_vec(Vec::from_slice(
                alloc,
                LIMIT_SOURCE.as_bytes(),
            )?)),
            Refusal::BadByte { at } => place_line(alloc, b"bad byte at ", u64::from(at)),
            Refusal::NumberTooLarge { at } => place_line(
                alloc,
                b"number too large at ",
                u64::from(at),
            ),
            Refusal::OpenComment { at } => place_line(alloc, b"open comment at ", u64::from(at)),
            Refusal::OpenText { at } => place_line(alloc, b"open text at ", u64::from(at)),
            Refusal::Unexpected { at } => place_line(alloc, b"unexpected token at ", u64::from(at)),
            Refusal::TooDeep { at } => place_line(alloc, b"limit: nesting at ", u64::from(at)),
            Refusal::Broken(rule) => rule_line(alloc, rule),
            Refusal::TooManySteps => Ok(List::from_vec(Vec::from_slice(
                alloc,
                LIMIT_STEPS.as_bytes(),
            )?)),
        }
    }
}
