//! Ranks that fall along every way.

ghost use Rattle.std.specs.Prelude.{◌≡◌, ◌<◌, ◌^◌, length, map, IfOk, IfSome, IfNone};
ghost use Rattle.graph_ranks.specs.Graph.{IsInside, HasCycle, IsRanking};
ghost use Rattle.graph_ranks.specs.inner.Search.{rank_in};

use crate::graph::Ways;
use crate::search::{Mark, Search};
use ac_base::{List, NoMemory};
use std::alloc::Global;

fn rank_of(mark: Mark) -> u64
    ensures { result ≡ rank_in mark }
{
    match mark {
        Mark::New | Mark::Open(_) => 0,
        Mark::Done(rank) => rank,
    }
}

fn ranks_in(alloc: Global, marks: &[Mark]) -> Result<List<u64>, NoMemory>
    ensures { IfOk result (λ ranks. ranks ≡ map rank_in marks.now) }
{
    let ranks = marks.iter().map(|mark| rank_of(*mark)).collect(alloc)?;
    Ok(List::from_vec(ranks))
}

/// A rank for each point of the graph, less wherever a way leads; None exactly where from some
/// point a way of one or more leads back to it. Each point and each way is looked at once.
pub fn ranks(alloc: Global, ways: &[Ways]) -> Result<Option<List<u64>>, NoMemory>
    requires few { length ways.now < 2 ^ 32 }
    requires inside { IsInside ways.now }
    ensures ranking { IfOk result (λ found. IfSome found (λ ranks. IsRanking ways.now ranks)) }
    ensures cycle { IfOk result (λ found. IfNone found (HasCycle ways.now)) }
{
    let mut marks = Vec::new(alloc);
    for _ in 0..ways.len() {
        marks.push(Mark::New)?;
    }
    let mut search = Search {
        marks,
        path: Vec::new(alloc),
        count: 0,
    };
    for root in 0..ways.len() as u32 {
        if !search.search_from(ways, root)? {
            return Ok(None);
        }
    }
    let ranks = ranks_in(alloc, search.marks.as_slice())?;
    Ok(Some(ranks))
}
