//! All entries of a run in one list.

ghost use Rattle.std.specs.Prelude.{◌≡◌, ◌++◌, ◌≤◌, ◌^◌, IfOk, OnOk, length, map};
ghost use Rattle.ac_links.specs.Order.{of_party};
ghost use Rattle.ac_history.specs.Merged.{entries_of, merged};

use ac_base::{Journal, List, NoMemory, Stamped};
use std::alloc::Global;

// Adds the entries of a party.
fn add_entries(
    alloc: Global,
    all: &mut List<Stamped>,
    party: u32,
    journal: &Journal,
) -> Result<(), NoMemory>
    ensures { OnOk result (all.new ≡ all.old ++ of_party party journal.now.entries) }
{
    for place in 0..journal.len() {
        let entry = journal.get(alloc, place)?;
        all.push(Stamped { party, entry })?;
    }
    Ok(())
}

/// The entries of all journals, the party of each being the place of its journal, in order of their
/// stamps, then of the parties, then of their places in the journals.
pub fn merge(alloc: Global, journals: &List<Journal>) -> Result<List<Stamped>, NoMemory>
    requires { length journals.now ≤ 2 ^ 32 }
    ensures { IfOk result (λ it. it ≡ merged (map entries_of journals.now)) }
{
    let mut all = List::new(alloc);
    for (party, journal) in journals.as_slice().iter().enumerate() {
        add_entries(alloc, &mut all, party as u32, journal)?;
    }
    let mut all = all.into_vec();
    all.sort_by_key(|e| e.entry.stamp)?;
    Ok(List::from_vec(all))
}
