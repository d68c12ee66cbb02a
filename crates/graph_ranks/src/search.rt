//! A search along the ways, deepest first.

ghost use Rattle.std.specs.Prelude.{◌≡◌, ◌<◌, ◌^◌, [], ◌∷◌, ◌++◌, length, slice_get, Some, IfOk, OnOk, MatchOption};
ghost use Rattle.graph_ranks.specs.Graph.{IsInside, HasCycle};
ghost use Rattle.graph_ranks.specs.inner.Search.{IsSearch, IsTop, Follows, HasAllDone, Seen, Turned, left, Keeps, Finished, Rooted};

use crate::graph::Ways;
use ac_base::NoMemory;
use std::alloc::Global;

/// How far a point is searched.
#[derive(Clone, Copy, Debug, PartialEq, Eq)]
pub enum Mark {
    New,
    /// It stands at that place of the path.
    Open(u64),
    /// All that it leads to is done, and it has this rank.
    Done(u64),
}

// What stands at the end of a way.
#[derive(Clone, Copy, Debug, PartialEq, Eq)]
enum Look {
    Closed,
    Cycle,
    Fresh(u32),
}

/// A search: the marks of all points, the path from where it began to where it stands, and the
/// next rank.
#[derive(Drop)]
pub struct Search {
    pub marks: Vec<Mark>,
    pub path: Vec<u32>,
    pub count: u64,
}

fn see(marks: &[Mark], to: Option<u32>) -> Look
    requires { MatchOption to (Unit {0}) (λ b. b < length marks.now) }
    ensures { Seen marks.now to result }
{
    match to {
        None => Look::Closed,
        Some(b) => match marks[b as usize] {
            Mark::New => Look::Fresh(b),
            Mark::Open(_) => Look::Cycle,
            Mark::Done(_) => Look::Closed,
        },
    }
}

fn top(path: &Vec<u32>) -> Option<u32>
    ensures { MatchOption result (path.now.items ≡ []) (λ a. IsTop path.now.items a) }
{
    let n = path.len();
    if n == 0 { None } else { Some(path[n - 1]) }
}

fn pop_top(path: &mut Vec<u32>) -> u32
    requires { 0 < length path.old.items }
    ensures { path.old.items ≡ path.new.items ++ result ∷ [] }
{
    match path.pop() {
        Some(a) => a,
        None => unreachable!(),
    }
}

impl Search {
    // A new point stands next on the path.
    fn open(&mut self, ways: &[Ways], a: u32) -> Result<(), NoMemory>
        requires search { IsSearch ways.now self.old.marks.items self.old.path.items self.old.count }
        requires fresh { slice_get self.old.marks.items a ≡ Some Mark.New }
        requires follows { Follows ways.now self.old.path.items a }
        ensures search { OnOk result (IsSearch ways.now self.new.marks.items self.new.path.items self.new.count) }
        ensures less { OnOk result (left self.new.marks.items < left self.old.marks.items) }
        ensures keeps { OnOk result (Keeps self.old.marks.items self.new.marks.items) }
        ensures here { OnOk result (slice_get self.new.marks.items a ≡ Some Mark.New → ⊥) }
    {
        let depth = self.path.len() as u64;
        self.path.push(a)?;
        self.marks[a as usize] = Mark::Open(depth);
        Ok(())
    }

    // The last point of the path is done.
    fn close(&mut self, ways: &[Ways], a: u32)
        requires few { length ways.now < 2 ^ 32 }
        requires search { IsSearch ways.now self.old.marks.items self.old.path.items self.old.count }
        requires top { IsTop self.old.path.items a }
        requires closed { HasAllDone ways.now self.old.marks.items a }
        ensures search { IsSearch ways.now self.new.marks.items self.new.path.items self.new.count }
        ensures less { left self.new.marks.items < left self.old.marks.items }
        ensures keeps { Keeps self.old.marks.items self.new.marks.items }
    {
        let rank = self.count;
        self.marks[a as usize] = Mark::Done(rank);
        let _ = pop_top(&mut self.path);
        self.count = rank + 1;
    }

    // One way or point more; false where there is a cycle.
    fn turn(&mut self, ways: &[Ways], a: u32) -> Result<bool, NoMemory>
        requires few { length ways.now < 2 ^ 32 }
        requires inside { IsInside ways.now }
        requires search { IsSearch ways.now self.old.marks.items self.old.path.items self.old.count }
        requires top { IsTop self.old.path.items a }
        ensures { IfOk result (λ more. Turned ways.now self.old.marks.items self.new.marks.items self.new.path.items self.new.count more) }
    {
        let on = ways[a as usize];
        match see(self.marks.as_slice(), on.one) {
            Look::Cycle => return Ok(false),
            Look::Fresh(b) => {
                self.open(ways, b)?;
                return Ok(true);
            }
            Look::Closed => {}
        }
        match see(self.marks.as_slice(), on.other) {
            Look::Cycle => return Ok(false),
            Look::Fresh(b) => {
                self.open(ways, b)?;
                return Ok(true);
            }
            Look::Closed => {}
        }
        self.close(ways, a);
        Ok(true)
    }

    // Goes on until the path is empty; false where there is a cycle.
    fn finish(&mut self, ways: &[Ways]) -> Result<bool, NoMemory>
        requires few { length ways.now < 2 ^ 32 }
        requires inside { IsInside ways.now }
        requires search { IsSearch ways.now self.old.marks.items self.old.path.items self.old.count }
        ensures { IfOk result (λ more. Finished ways.now self.old.marks.items self.new.marks.items self.new.path.items self.new.count
            more) }
    {
        while let Some(a) = top(&self.path) {
            if !self.turn(ways, a)? {
                return Ok(false);
            }
        }
        Ok(true)
    }

    /// Searches all that a point leads to; false where there is a cycle.
    pub fn search_from(&mut self, ways: &[Ways], root: u32) -> Result<bool, NoMemory>
        requires few { length ways.now < 2 ^ 32 }
        requires inside { IsInside ways.now }
        requires search { IsSearch ways.now self.old.marks.items self.old.path.items self.old.count }
        requires empty { self.old.path.items ≡ [] }
        requires root { root < length self.old.marks.items }
        ensures { IfOk result (λ more. Rooted ways.now self.old.marks.items self.new.marks.items self.new.path.items self.new.count root
            more) }
    {
        match self.marks[root as usize] {
            Mark::New => {
                self.open(ways, root)?;
                self.finish(ways)
            }
            _ => Ok(true),
        }
    }
}
