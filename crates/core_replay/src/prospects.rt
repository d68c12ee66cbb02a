//! Where an entry may come in.

ghost use Rattle.std.specs.Prelude.{◌≡◌, false};
ghost use Rattle.core_machine.specs.Machine.{has_ended};
ghost use Rattle.core_replay.specs.inner.Replaying.{IsProspect};

use core_machine::{CoreMachine, Tried};

/// What becomes of an entry of some turn next.
#[derive(Clone, Copy, Debug, PartialEq, Eq)]
pub enum Prospect {
    /// The core asks for the outcome of that offer, and only that comes in.
    Asks(Tried),
    /// It comes in here, if it fits.
    Here,
    /// The core is idle in another turn.
    Never,
    /// The core goes on first.
    Later,
}

/// What becomes next of an entry of that turn, which is not over.
pub fn prospect_of(machine: &CoreMachine<'_>, turn: u64) -> Prospect
    requires { has_ended machine.now.state ≡ false }
    ensures { IsProspect machine.now turn result }
{
    if let Some(tried) = machine.tried() {
        return Prospect::Asks(tried);
    }
    if !machine.is_at_point() {
        return Prospect::Later;
    }
    if turn == machine.turns() {
        return Prospect::Here;
    }
    if machine.idle() {
        Prospect::Never
    } else {
        Prospect::Later
    }
}
