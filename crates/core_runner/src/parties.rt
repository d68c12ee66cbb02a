//! The parties of a run as it begins, and the links between them.

ghost use Rattle.std.specs.Prelude.{◌≡◌, ◌<◌, Some, length, slice_get, vec_len, vec_capacity, IfOk};
ghost use Rattle.code_safety.specs.KeptEnds.{KeepsEnds};
ghost use Rattle.run_ends.specs.Dealt.{HasItsEnds};
ghost use Rattle.core_runner.specs.inner.Parties.{AreNewCores, AreWaysOf};

use ac_base::NoMemory;
use ac_outside::Disk;
use core_machine::CoreMachine;
use end_ports::CorePorts;
use run_parties::{CoreParty, RunParty};
use settled_rounds::Way;
use stack_code::{ChannelEnds, Code};
use std::alloc::Global;

/// The cores of a code in order before their first step, each with its ports, and room for one party
/// more.
///
/// Conditions: there are ports for each core, which are its own and new, and each core uses a channel
/// only at its own end.
pub(crate) fn cores_of<'a, 'd, D: Disk>(
    alloc: Global,
    code: &'a Code,
    steps: u64,
    ports: Vec<CorePorts<'a>>,
) -> Result<Vec<RunParty<'a, 'd, D>>, NoMemory>
    requires keeps { KeepsEnds code.now }
    requires count { length ports.items ≡ length code.now.entries }
    requires ends { (k : _) → (h : _) → slice_get ports.items k ≡ Some h → HasItsEnds code.now.ends code.now.capacities k h }
    ensures cores { IfOk result (λ r. AreNewCores code.now steps ports.entry.items r.items) }
    ensures room { IfOk result (λ r. vec_len r < vec_capacity r) }
{
    // What holds of a code at any time is asked for, for the proof.
    let _instrs = code.instrs();
    let mut parties = Vec::new(alloc);
    let mut number = 0;
    for own in ports {
        let machine = CoreMachine::new(alloc, code, number, steps)?;
        parties.push(RunParty::Core(CoreParty::new(machine, own)))?;
        number += 1;
    }
    parties.reserve(1)?;
    Ok(parties)
}

/// A way for each link of a code: for each channel from the one core to the other, and for the requests
/// of each core from it to the worker, who comes after the cores.
pub(crate) fn ways_of(alloc: Global, ends: &[ChannelEnds], cores: u32) -> Result<Vec<Way>, NoMemory>
    ensures { IfOk result (λ r. AreWaysOf ends.now cores r.items) }
{
    let mut ways = Vec::new(alloc);
    for channel in ends {
        ways.push(Way {
            from: channel.from,
            to: channel.to,
        })?;
    }
    for core in 0..cores {
        ways.push(Way {
            from: core,
            to: cores,
        })?;
    }
    Ok(ways)
}
