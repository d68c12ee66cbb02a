//! What the cores of a run leave: their journals, and how they have ended.

ghost use Rattle.std.specs.Prelude.{◌≡◌, [], ◌∷◌, ◌++◌, map, IfOk, OnOk};
ghost use Rattle.std.specs.List.{AllByRecursion};
ghost use Rattle.ac_history.specs.Merged.{entries_of};
ghost use Rattle.run_laws.specs.Laws.{IsRunOfCores};
ghost use Rattle.run_parties.specs.Seats.{core_of};
ghost use Rattle.run_parties.specs.Seated.{HasItsPorts};
ghost use Rattle.core_runner.specs.inner.Parties.{seats_in};

use ac_base::{Bytes, Journal, List, MachineEnd, NoMemory};
use ac_outside::Disk;
use program_run::Ended;
use run_parties::RunParty;
use std::alloc::Global;

// Keeps the journal of a core, and how it has ended. The worker's journal is taken elsewhere.
fn keep<'a, 'd, D: Disk>(
    alloc: Global,
    party: RunParty<'a, 'd, D>,
    journals: &mut List<Journal>,
    ends: &mut List<MachineEnd>,
) -> Result<(), NoMemory>
    ensures journals { OnOk result (map entries_of journals.new
        ≡ map entries_of journals.old ++ map (λ s. (core_of s).journal) (seats_in (party.entry ∷ []))) }
    ensures ends { OnOk result (ends.new ≡ ends.old ++ map (λ s. (core_of s).end) (seats_in (party.entry ∷ []))) }
    ensures ports { OnOk result (AllByRecursion HasItsPorts (seats_in (party.entry ∷ []))) }
{
    match party {
        RunParty::Core(core) => {
            ends.push(core.machine().end(alloc)?)?;
            journals.push(core.into_machine().into_journal())?;
            Ok(())
        }
        RunParty::Disk(_) => Ok(()),
    }
}

/// The run of these cores from these files on: their journals in order and then the worker's, and how
/// they have ended. The ports of each core were its own.
pub(crate) fn ended_of<'a, 'd, D: Disk>(
    alloc: Global,
    steps: u64,
    files: List<Bytes>,
    cores: Vec<RunParty<'a, 'd, D>>,
    worker: Journal,
) -> Result<Ended, NoMemory>
    ensures run { IfOk result (λ ended. IsRunOfCores steps files (map core_of (seats_in cores.entry.items)) worker.entries ended) }
    ensures ports { OnOk result (AllByRecursion HasItsPorts (seats_in cores.entry.items)) }
{
    let mut journals = List::new(alloc);
    let mut ends = List::new(alloc);
    for party in cores {
        keep(alloc, party, &mut journals, &mut ends)?;
    }
    journals.push(worker)?;
    Ok(Ended {
        steps,
        start: files,
        journals,
        cores: ends,
    })
}
