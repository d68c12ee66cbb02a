//! How an instruction of the running thread went.

ghost use Rattle.std.specs.Prelude.{◌≡◌, ◌≢◌, true};
ghost use Rattle.core_machine.specs.declared.went.Went.{Went};
ghost use Rattle.core_machine.specs.inner.Follows.{follows_of};

use ac_base::NoMemory;

/// How an instruction of the running thread went.
#[derive(Clone, Copy, Debug, PartialEq, Eq)]
pub enum Went {
    /// It was done, and the same thread goes on with the next one.
    On,
    /// It was done. The core may have ended, another thread may run, or none, or a value is still to
    /// be put onto operands.
    Away,
    /// Nothing was done: it is a cancel that tries an operation which was offered, and the core waits
    /// to be told what has come of the offer.
    Asks,
}

/// How one went that was done; and whether the same thread goes on.
#[inline(always)]
pub fn done(goes: bool) -> Went
    ensures on { result ≡ Went.On → goes ≡ true }
    ensures done { result ≢ Went.Asks }
{
    if goes { Went::On } else { Went::Away }
}

/// How a stretch goes on after an instruction. It is one of four, with nothing in it, so that compiled
/// code knows it from the instruction and does not look.
#[derive(Clone, Copy, Debug, PartialEq, Eq)]
pub enum Follows {
    /// The same thread goes on with the next instruction.
    Same,
    /// It was done, and the stretch is over.
    Away,
    /// Nothing was done: the core waits for an outcome.
    Asks,
    /// Memory was refused, and nothing was done.
    Refused,
}

/// How a stretch goes on after an instruction that went so, or was refused memory.
#[inline(always)]
pub fn how_on(went: Result<Went, NoMemory>) -> Follows
    ensures { result ≡ follows_of went }
{
    match went {
        Ok(Went::On) => Follows::Same,
        Ok(Went::Away) => Follows::Away,
        Ok(Went::Asks) => Follows::Asks,
        Err(_) => Follows::Refused,
    }
}
