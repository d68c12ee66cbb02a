//! What a walk over the tree has seen so far.

ghost use Rattle.std.specs.Prelude.{◌≡◌, None, [], OnOk};
ghost use Rattle.ac_types.specs.inner.Seen.{least_with, noted_by};

use crate::carried::Carried;
use crate::rule::{BrokenRule, Rule};
use ac_base::{List, NoMemory};
use std::alloc::Global;

/// The first broken rule of the nodes that a walk has seen, and in order the numbers of the functions that they call and what
/// they say of channels.
#[derive(Drop)]
pub struct Seen {
    pub first: Option<BrokenRule>,
    pub calls: List<u32>,
    pub carried: List<Carried>,
}

/// The lesser of a rule, where it is broken, and of the least of the other rules.
pub fn least(rule: Rule, is_broken: bool, rest: Option<Rule>) -> Option<Rule>
    ensures { result ≡ least_with rule is_broken rest }
{
    if is_broken {
        match rest {
            None => Some(rule),
            Some(other) if other.number() < rule.number() => Some(other),
            Some(_) => Some(rule),
        }
    } else {
        rest
    }
}

impl Seen {
    /// Nothing yet.
    pub fn new(alloc: Global) -> Seen
        ensures first { result.first ≡ None }
        ensures calls { result.calls ≡ [] }
        ensures carried { result.carried ≡ [] }
    {
        Seen {
            first: None,
            calls: List::new(alloc),
            carried: List::new(alloc),
        }
    }

    /// Notes a node with the least rule that it breaks, the function that it calls, and what it says of a channel.
    pub fn note(
        &mut self,
        at: u32,
        rule: Option<Rule>,
        call: Option<u32>,
        carried: Option<Carried>,
    ) -> Result<(), NoMemory>
        ensures { OnOk result (self.new ≡ noted_by at rule call carried self.old) }
    {
        if let Some(function) = call {
            self.calls.push(function)?;
        }
        if let Some(carried) = carried {
            self.carried.push(carried)?;
        }
        match (self.first, rule) {
            (None, Some(rule)) => self.first = Some(BrokenRule { rule, at }),
            _ => {}
        }
        Ok(())
    }
}
