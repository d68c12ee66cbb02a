//! The vectors of all entries in one table.

ghost use Rattle.std.specs.Prelude.{◌≡◌, ℕ, ◌+◌, ◌-◌, ◌*◌, ◌<◌, ◌≤◌, ◌^◌, length, IfOk, slice_index};
ghost use Rattle.ac_causal.specs.inner.Marks.{count_at, new_count, no_marks, HasRow, IsTable};
ghost use Rattle.ac_causal.specs.inner.Opening.{AreSeen};

use crate::marks::Marks;
use ac_base::{NoMemory, Stamped};
use std::alloc::Global;

/// The count of a party in the row of a mark; 0 where there is no mark.
#[tactic(auto, using(std::proofs::lemmas::Nat::rows))]
pub fn count_at(table: &[u32], parties: u32, mark: u32, party: u32) -> u32
    requires { party < parties }
    ensures { result ≡ count_at parties table.now mark party }
{
    if mark == 0 {
        return 0;
    }
    let place = u64::from(mark - 1) * u64::from(parties) + u64::from(party);
    match table.get(place as usize) {
        Some(count) => *count,
        None => 0,
    }
}

// What stands in a new row for a party.
fn new_count(table: &[u32], parties: u32, owner: u32, last: u32, seen: u32, party: u32) -> u32
    requires within { party < parties }
    requires room { (i : ℕ) → slice_index table.now i < 2 ^ 32 - 1 }
    ensures { result ≡ new_count parties table.now owner last seen party }
{
    let before = count_at(table, parties, last, party);
    let learned = count_at(table, parties, seen, party);
    let count = before.max(learned);
    if party == owner { count + 1 } else { count }
}

// Adds the row of an entry of this party, before which these two marks stand.
fn add_row(
    table: &mut Vec<u32>,
    parties: u32,
    owner: u32,
    last: u32,
    seen: u32,
) -> Result<(), NoMemory>
    requires { (i : ℕ) → slice_index table.old.items i < 2 ^ 32 - 1 }
    ensures { IfOk result (λ _. HasRow parties owner last seen table.old.items table.new.items parties) }
{
    let rows = table.len();
    for party in 0..parties {
        let count = new_count(&table[..rows], parties, owner, last, seen, party);
        table.push(count)?;
    }
    Ok(())
}

/// The vectors of the entries, one row after the other, each with a count for each party; and the
/// mark of what each entry answers.
#[derive(Debug, Drop)]
pub struct Rows {
    pub table: Vec<u32>,
    pub seen: Vec<u32>,
}

/// The vectors of entries on so many links.
pub fn rows_of(
    alloc: Global,
    links: u64,
    parties: u32,
    entries: &[Stamped],
) -> Result<Rows, NoMemory>
    requires { length entries.now < 2 ^ 32 }
    ensures rows { IfOk result (λ it. IsTable parties (no_marks links parties) entries.now (length entries.now) it.table.items) }
    ensures marks { IfOk result (λ it. AreSeen (no_marks links parties) entries.now (length entries.now) it.seen.items) }
{
    let mut marks = Marks::new(alloc, links, u64::from(parties))?;
    let mut table = Vec::new(alloc);
    let mut seen = Vec::new(alloc);
    for (place, stamped) in entries.iter().enumerate() {
        let last = marks.last(stamped);
        let answered = marks.seen(stamped);
        add_row(&mut table, parties, stamped.party, last, answered)?;
        seen.push(answered)?;
        marks.add(place as u32 + 1, stamped)?;
    }
    Ok(Rows { table, seen })
}
