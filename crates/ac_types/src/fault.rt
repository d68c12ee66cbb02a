//! Why a program is refused.

ghost use Rattle.std.specs.Prelude.{◌≡◌};
ghost use Rattle.ac_types.specs.declared.fault.CheckFault.TheVariants as f;

use ac_base::NoMemory;
use thiserror::Error;

/// Why a program is not accepted.
#[derive(Clone, Copy, Debug, PartialEq, Eq, Error)]
pub enum CheckFault {
    /// The least pair of a node, by its number in preorder, and a rule that it breaks: the rule's number, and the first byte of the node.
    #[error("rule C{rule} at {at}")]
    Broken { rule: u8, at: u32 },
    /// Memory was refused.
    #[error("no memory")]
    NoMemory,
}

impl From<NoMemory> for CheckFault {
    ghost from_gives = { λ _ e. e ≡ f.NoMemory };

    fn from(_: NoMemory) -> CheckFault {
        CheckFault::NoMemory
    }
}
