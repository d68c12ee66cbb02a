//! The parties of each link of a code.

ghost use Rattle.std.specs.Prelude.{◌≡◌, ℕ, ◌<◌, length, IfOk};
ghost use Rattle.ac_history.specs.Quiet.{owner_in, peer_in};
ghost use Rattle.program_run.specs.Parties.{owner_of, peer_of};

use ac_base::{List, NoMemory};
use ac_history::LinkParties;
use stack_code::Code;
use std::alloc::Global;

/// The two cores of each channel, and then each core with the worker.
pub fn parties_of(alloc: Global, code: &Code) -> Result<List<LinkParties>, NoMemory>
    ensures count { IfOk result (λ ps. length ps ≡ length code.now.capacities) }
    ensures owners { IfOk result (λ ps. (l : ℕ) → l < length ps → owner_in ps l ≡ owner_of code.now.ends l) }
    ensures peers { IfOk result (λ ps. (l : ℕ) → l < length ps → peer_in ps l ≡ peer_of code.now.ends (length code.now.entries) l) }
{
    // A code is valid, so its cores are few.
    let _instrs = code.instrs();
    let cores = code.entries().len() as u32;
    let mut parties = List::new(alloc);
    for ends in code.ends() {
        parties.push(LinkParties {
            owner: ends.from,
            peer: ends.to,
        })?;
    }
    for core in 0..cores {
        parties.push(LinkParties {
            owner: core,
            peer: cores,
        })?;
    }
    Ok(parties)
}
