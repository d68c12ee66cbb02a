//! The entries that the next one may follow: the last of each party, and the one that each offer
//! stands by. They are told by their marks, which are their places counted from 1, and 0 for none.

ghost use Rattle.std.specs.Prelude.{◌≡◌, ℕ, List, [], IfOk, slice_index, slice_set, replicate};
ghost use Rattle.ac_causal.specs.inner.Marks.{link_marks_after, answered_mark, Marked, no_marks, last_mark, seen_mark, marked_after};

use ac_base::{Event, NoMemory, Stamped};
use ac_links::link_of;
use std::alloc::Global;
use std::marker::Model;

/// By number, the mark of the entry by which an offer of one link stands as it does.
#[derive(Debug, Drop)]
struct LinkMarks {
    marks: Vec<u32>,
}

impl Model for LinkMarks {
    ghost use Rattle.std.specs.Prelude.{ℕ, List};

    ghost Value = { List ℕ };

    ghost view = { λ it. it.marks.items };
}

impl LinkMarks {
    fn new(alloc: Global) -> LinkMarks
        ensures { result ≡ [] }
    {
        LinkMarks {
            marks: Vec::new(alloc),
        }
    }

    fn get(&self, number: u64) -> u32
        ensures { result ≡ slice_index self.now number }
    {
        match self.marks.get(number as usize) {
            Some(mark) => *mark,
            None => 0,
        }
    }

    fn set(&mut self, number: u64, mark: u32)
        ensures { self.new ≡ slice_set self.old number mark }
    {
        if (number as usize) < self.marks.len() {
            self.marks[number as usize] = mark;
        }
    }

    // The mark of the entry that the event answers, or 0.
    fn answered(&self, event: &Event) -> u32
        ensures { result ≡ answered_mark self.now event.now }
    {
        match event {
            Event::Offer { .. } | Event::Withdraw { .. } => 0,
            Event::Know { number, .. } => self.get(*number),
            Event::Room { number, .. } => self.get(*number),
            Event::Got { number, .. } => self.get(*number),
            Event::Pass { number, .. } => self.get(*number),
            Event::Did { number, .. } => self.get(*number),
            Event::Reply { number, .. } => self.get(*number),
        }
    }

    // Notes the mark of an entry with this event.
    fn add(&mut self, mark: u32, event: &Event) -> Result<(), NoMemory>
        ensures { IfOk result (λ _. self.new ≡ link_marks_after self.old mark event.now) }
    {
        match event {
            Event::Offer { .. } => self.marks.push(mark)?,
            Event::Withdraw { number, .. } => self.set(*number, mark),
            Event::Got { number, .. } => self.set(*number, mark),
            Event::Pass { number, .. } => self.set(*number, mark),
            Event::Did { number, .. } => self.set(*number, mark),
            Event::Know { .. } | Event::Room { .. } | Event::Reply { .. } => {}
        }
        Ok(())
    }
}

fn no_lasts(alloc: Global, parties: u64) -> Result<Vec<u32>, NoMemory>
    ensures { IfOk result (λ it. it.items ≡ replicate parties 0) }
{
    let mut all = Vec::new(alloc);
    for _party in 0..parties {
        all.push(0)?;
    }
    Ok(all)
}

fn no_links(alloc: Global, links: u64) -> Result<Vec<LinkMarks>, NoMemory>
    ensures { IfOk result (λ it. it.items ≡ replicate links []) }
{
    let mut all = Vec::new(alloc);
    for _link in 0..links {
        all.push(LinkMarks::new(alloc))?;
    }
    Ok(all)
}

/// The marks after the entries so far.
#[derive(Debug, Drop)]
pub struct Marks {
    lasts: Vec<u32>,
    links: Vec<LinkMarks>,
}

impl Model for Marks {
    ghost use Rattle.ac_causal.specs.inner.Marks.{Marked};

    ghost Value = { Marked };

    ghost view = { λ it. record { lasts = it.lasts.items; links = it.links.items } };
}

impl Marks {
    /// No entry has come.
    pub fn new(alloc: Global, links: u64, parties: u64) -> Result<Marks, NoMemory>
        ensures { IfOk result (λ it. it ≡ no_marks links parties) }
    {
        Ok(Marks {
            lasts: no_lasts(alloc, parties)?,
            links: no_links(alloc, links)?,
        })
    }

    /// The mark of the last entry of the entry's party, or 0.
    pub fn last(&self, stamped: &Stamped) -> u32
        ensures { result ≡ last_mark self.now stamped.now }
    {
        match self.lasts.get(stamped.party as usize) {
            Some(mark) => *mark,
            None => 0,
        }
    }

    /// The mark of the entry that this one answers, or 0.
    pub fn seen(&self, stamped: &Stamped) -> u32
        ensures { result ≡ seen_mark self.now stamped.now }
    {
        match self.links.get(link_of(&stamped.entry.event) as usize) {
            Some(link) => link.answered(&stamped.entry.event),
            None => 0,
        }
    }

    /// Notes the mark of the entry.
    pub fn add(&mut self, mark: u32, stamped: &Stamped) -> Result<(), NoMemory>
        ensures { IfOk result (λ _. self.new ≡ marked_after self.old mark stamped.now) }
    {
        let party = stamped.party as usize;
        if party < self.lasts.len() {
            self.lasts[party] = mark;
        }
        let link = link_of(&stamped.entry.event) as usize;
        if link < self.links.len() {
            self.links[link].add(mark, &stamped.entry.event)?;
        }
        Ok(())
    }
}
