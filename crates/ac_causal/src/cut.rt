//! Cuts: which counts are one, and what is said of one.

ghost use Rattle.std.specs.Prelude.{◌≡◌, ◌<◌, ◌↔◌, length, min, IsTrue};
ghost use Rattle.ac_causal.specs.Cuts.{made_by, IsCut};

use ac_base::Stamped;

/// A cut is closed where each entry that an entry of it answers is in it, too; else it is open at an
/// entry that is not, counted from 0.
#[derive(Clone, Copy, Debug, PartialEq, Eq)]
pub enum CutAnswer {
    Closed,
    Open { entry: u64 },
}

// How many of the entries the party made.
fn made_by(entries: &[Stamped], party: u32) -> u64
    ensures { result ≡ made_by entries.now party (length entries.now) }
{
    let mut count = 0;
    for stamped in entries {
        if stamped.party == party {
            count += 1;
        }
    }
    count
}

/// Whether the counts are a cut of entries of so many parties.
pub fn is_cut(entries: &[Stamped], parties: u32, counts: &[u32]) -> bool
    ensures { IsTrue result ↔ IsCut entries.now parties counts.now }
{
    if counts.len() != parties as usize {
        return false;
    }
    for (party, count) in counts.iter().enumerate() {
        if u64::from(*count) > made_by(entries, party as u32) {
            return false;
        }
    }
    true
}

/// The lesser of two marks, of which 0 is none.
pub fn lesser(one: u32, other: u32) -> u32
    ensures first { one ≡ 0 → result ≡ other }
    ensures second { 0 < one → other ≡ 0 → result ≡ one }
    ensures both { 0 < one → 0 < other → result ≡ min one other }
{
    if one == 0 {
        other
    } else if other == 0 {
        one
    } else {
        one.min(other)
    }
}
