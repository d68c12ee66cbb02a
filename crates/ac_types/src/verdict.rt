//! The least broken rule of a program.

ghost use Rattle.std.specs.Prelude.{◌≡◌, ◌≤◌, [], None, IfOk};
ghost use Rattle.ac_tree.specs.Weight.{items_weight};
ghost use Rattle.ac_names.specs.Items.{outermost, past_all, no_past};
ghost use Rattle.ac_types.specs.Items.{items_nodes, program_tests};
ghost use Rattle.ac_types.specs.inner.Seen.{first_of, least_broken};
ghost use Rattle.ac_types.specs.inner.Verdicts.{AreTables, Judges};

use crate::gathered::{Gathered, gather};
use crate::items::{judge_program, see_items};
use crate::numbered::Tables;
use crate::rule::BrokenRule;
use crate::seen::Seen;
use crate::statements::Walk;
use ac_base::{List, NoMemory};
use ac_names::{Counts, Names, Past, whole};
use ac_tree::Item;
use std::alloc::Global;

/// The least broken rule of a program, or what is counted of it, for each core whether it reaches each function, and how many
/// ints a message of each channel has.
#[derive(Drop)]
pub enum Verdict {
    Broken(BrokenRule),
    Clean(Counts, List<List<bool>>, List<u32>),
}

/// The first rule that a node after the program's own breaks.
fn first_of_items(
    alloc: Global,
    walk: &mut Walk,
    gathered: &Gathered,
    items: &[Item],
) -> Result<Option<BrokenRule>, NoMemory>
    requires scopes { walk.old.names.scopes ≡ outermost items.now }
    requires labels { walk.old.names.labels ≡ [] }
    requires slot { walk.old.names.slot ≡ 0 }
    requires tables { AreTables items.now gathered.now }
    requires small { items_weight items.now ≤ 1048576 }
    ensures { IfOk result (λ first. first ≡ first_of (items_nodes items.now gathered.now.tables.reached)) }
{
    walk.seen = Seen::new(alloc);
    see_items(alloc, walk, &gathered.tables, items)?;
    Ok(walk.seen.first)
}

/// What the check of a program says whose own node breaks no rule, by what is known of its items.
fn judge_items(alloc: Global, past: Past, items: &[Item]) -> Result<Verdict, NoMemory>
    requires past { past ≡ past_all no_past items.now }
    requires small { items_weight items.now ≤ 1048576 }
    requires clean { least_broken (program_tests (past_all no_past items.now).counts.cores) ≡ None }
    ensures { IfOk result (λ verdict. Judges items.now verdict) }
{
    let Past {
        counts,
        names,
        paths: _,
    } = past;
    let mut walk = Walk {
        names: Names::outermost(alloc, names)?,
        seen: Seen::new(alloc),
    };
    let gathered = gather(alloc, &mut walk, items)?;
    match first_of_items(alloc, &mut walk, &gathered, items)? {
        Some(broken) => Ok(Verdict::Broken(broken)),
        None => {
            let Gathered { tables, reach } = gathered;
            let Tables {
                functions: _,
                channels: _,
                widths,
                reached: _,
            } = tables;
            Ok(Verdict::Clean(counts, reach, widths))
        }
    }
}

/// What the check of a program says.
pub fn judge(alloc: Global, items: &[Item]) -> Result<Verdict, NoMemory>
    requires { items_weight items.now ≤ 1048576 }
    ensures { IfOk result (λ verdict. Judges items.now verdict) }
{
    let past = whole(alloc, items)?;
    match judge_program(past.counts.cores) {
        Some(rule) => Ok(Verdict::Broken(BrokenRule { rule, at: 0 })),
        None => judge_items(alloc, past, items),
    }
}
