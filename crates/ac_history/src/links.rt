//! All links of a run with the stamps of its parties, and whether an entry may come next.

ghost use Rattle.std.specs.Prelude.{◌≡◌, IfOk, OnErr, ◌==◌, ◌<◌, ◌≤◌, ◌+◌, length, if◌then◌else◌, replicate, []};
ghost use Rattle.std.specs.Prelude.{slice_get, Some, None, MatchOption, nat_le, ◌||◌};
ghost use Rattle.std.specs.List.{list_any};
ghost use Rattle.ac_base.specs.Stamps.{next_stamp};
ghost use Rattle.ac_links.specs.AtRest.{has_front, has_room, is_news, is_unreplied};
ghost use Rattle.ac_links.specs.Link.{link_of, offered_payload};
ghost use Rattle.ac_history.specs.History.{start, link_at, in_range, is_later, has_stamp, terms_of, makes, may_make, fits, after};
ghost use Rattle.ac_history.specs.History.{has_width, has_its_width};

use ac_base::{Event, List, NoMemory, Payload, Stamped};
use ac_links::{Link, Terms, link_of};
use std::alloc::Global;
use std::marker::Model;

fn is_next(stamp: u64, last: u64, seen: u64) -> bool
    ensures { result ≡ (stamp == next_stamp last seen) }
{
    stamp != 0 && stamp - 1 == last.max(seen)
}

// Whether a core, or the worker, may make the event, on a link that carries requests or not.
fn makes(core: bool, worker: bool, requests: bool, event: &Event) -> bool
    ensures { result ≡ makes core worker requests event.now }
{
    match event {
        Event::Offer { .. } => core,
        Event::Withdraw { .. } => core,
        Event::Know { .. } => core,
        Event::Room { .. } => core,
        Event::Got { .. } => core && !requests,
        Event::Pass { .. } => { if requests { worker } else { core } }
        Event::Did { .. } => worker && requests,
        Event::Reply { .. } => core,
    }
}

// Whether the payload, on a channel of this width, has as many ints, where it is a message; a request is
// none.
fn has_width(width: u32, payload: &Payload) -> bool
    ensures { result ≡ has_width (Some width) payload.now }
{
    match payload {
        Payload::Int(ints) => ints.len() == width,
        _ => true,
    }
}

fn no_offers(alloc: Global, links: u64) -> Result<Vec<Link>, NoMemory>
    ensures { IfOk result (λ it. it.items ≡ replicate links []) }
{
    let mut all = Vec::new(alloc);
    for _link in 0..links {
        all.push(Link::new(alloc))?;
    }
    Ok(all)
}

fn no_stamps(alloc: Global, parties: u64) -> Result<Vec<u64>, NoMemory>
    ensures { IfOk result (λ it. it.items ≡ replicate parties 0) }
{
    let mut all = Vec::new(alloc);
    for _party in 0..parties {
        all.push(0)?;
    }
    Ok(all)
}

/// The links and the stamps after the entries so far.
#[derive(Debug, Drop)]
pub struct Links {
    capacities: List<u32>,
    widths: List<u32>,
    channels: u64,
    cores: u32,
    links: Vec<Link>,
    lasts: Vec<u64>,
    stamp: u64,
    party: u32,
    alloc: Global,
}

impl Model for Links {
    ghost use Rattle.ac_history.specs.History.{Past};

    ghost Value = { Past };

    ghost view = { λ it. record {
      capacities = it.capacities;
      widths = it.widths;
      channels = it.channels;
      cores = it.cores;
      links = it.links.items;
      lasts = it.lasts.items;
      stamp = it.stamp;
      party = it.party;
    } };
}

impl Links {
    /// Links of these capacities, of which nothing has been offered. The last ones are those of the
    /// cores' requests, and the messages of the others have so many ints.
    pub fn new(
        alloc: Global,
        capacities: &List<u32>,
        widths: &List<u32>,
        cores: u32,
    ) -> Result<Links, NoMemory>
        requires { cores ≤ length capacities.now }
        ensures { IfOk result (λ it. it ≡ start capacities.now widths.now cores) }
    {
        Ok(Links {
            capacities: capacities.copy(alloc)?,
            widths: widths.copy(alloc)?,
            channels: capacities.len() - u64::from(cores),
            cores,
            links: no_offers(alloc, capacities.len())?,
            lasts: no_stamps(alloc, u64::from(cores) + 1)?,
            stamp: 0,
            party: 0,
            alloc,
        })
    }

    /// Whether the link is one for the requests of a core.
    pub fn has_requests(&self, link: usize) -> bool
        ensures { result ≡ nat_le self.now.channels link }
    {
        self.channels <= link as u64
    }

    fn terms_of(&self, link: usize) -> Terms
        ensures { result ≡ terms_of self.now.capacities self.now.channels link }
    {
        let capacity = match self.capacities.as_slice().get(link) {
            Some(capacity) => *capacity,
            None => 0,
        };
        Terms {
            capacity,
            requests: self.has_requests(link),
        }
    }

    /// Whether some offer of the link is not decided.
    pub fn has_front(&self, link: usize) -> bool
        ensures { result ≡ has_front (link_at self.now link) }
    {
        match self.links.get(link) {
            Some(link) => link.has_front(),
            None => false,
        }
    }

    /// Whether there is room for one offer more on the link.
    pub fn has_room(&self, link: usize) -> bool
        ensures { result ≡ has_room (terms_of self.now.capacities self.now.channels link) (link_at self.now link) }
    {
        let terms = self.terms_of(link);
        match self.links.get(link) {
            Some(link) => link.has_room(terms),
            None => terms.capacity != 0,
        }
    }

    /// Whether something has become of an offer of the link that its owner has not had.
    pub fn has_news(&self, link: usize) -> bool
        ensures { result ≡ list_any (λ o. is_news o || is_unreplied o) (link_at self.now link) }
    {
        match self.links.get(link) {
            Some(link) => link.has_news(),
            None => false,
        }
    }

    fn may_make(&self, entry: &Stamped) -> bool
        ensures { result ≡ may_make self.now.channels self.now.cores entry.now }
    {
        let core = entry.party < self.cores;
        let worker = entry.party == self.cores;
        let requests = self.channels <= u64::from(link_of(&entry.entry.event));
        makes(core, worker, requests, &entry.entry.event) && (core || entry.entry.turn == 0)
    }

    fn has_its_width(&self, event: &Event) -> bool
        ensures { result ≡ has_its_width self.now.widths event.now }
    {
        match event {
            Event::Offer { link, payload, .. } => {
                match self.widths.as_slice().get(*link as usize) {
                    Some(width) => has_width(*width, payload),
                    None => true,
                }
            }
            _ => true,
        }
    }

    fn is_later(&self, entry: &Stamped) -> bool
        ensures { result ≡ is_later self.now.stamp self.now.party entry.now }
    {
        self.stamp < entry.entry.stamp
            || (self.stamp == entry.entry.stamp && self.party < entry.party)
    }

    fn has_stamp(&self, entry: &Stamped) -> bool
        requires link { link_of entry.now.entry.event < length self.now.links }
        requires party { entry.now.party < length self.now.lasts }
        ensures { result ≡ has_stamp self.now entry.now }
    {
        let link = link_of(&entry.entry.event) as usize;
        let seen = self.links[link].answered(&entry.entry.event);
        is_next(entry.entry.stamp, self.lasts[entry.party as usize], seen)
    }

    /// What was offered on the link under the number.
    pub fn payload(&self, link: u32, number: u64) -> Option<&Payload>
        ensures { MatchOption result (offered_payload (slice_get (link_at self.now link) number) ≡ None)
            (λ it. offered_payload (slice_get (link_at self.now link) number) ≡ Some it.now) }
    {
        match self.links.get(link as usize) {
            Some(link) => link.payload(number),
            None => None,
        }
    }

    /// Whether the entry may come next.
    pub fn fits(&self, entry: &Stamped) -> bool
        ensures { result ≡ fits self.now entry.now }
    {
        let link = link_of(&entry.entry.event);
        if link as usize >= self.links.len() || entry.party as usize >= self.lasts.len() {
            return false;
        }
        self.is_later(entry)
            && self.has_stamp(entry)
            && self.may_make(entry)
            && self.has_its_width(&entry.entry.event)
            && self.links[link as usize].fits(self.terms_of(link as usize), &entry.entry.event)
    }

    /// Takes the entry, where it may come next, and says whether it did.
    pub fn step(&mut self, entry: &Stamped) -> Result<bool, NoMemory>
        ensures answer { IfOk result (λ b. b ≡ fits self.old entry.now) }
        ensures state { IfOk result (λ b. self.new ≡ (if b then after self.old entry.now else self.old)) }
        ensures err { OnErr result (self.new ≡ self.old) }
    {
        let link = link_of(&entry.entry.event) as usize;
        let party = entry.party as usize;
        if link >= self.links.len() || party >= self.lasts.len() {
            return Ok(false);
        }
        if !self.fits(entry) {
            return Ok(false);
        }
        self.links[link].add(self.alloc, entry.entry.stamp, &entry.entry.event)?;
        self.lasts[party] = entry.entry.stamp;
        self.stamp = entry.entry.stamp;
        self.party = entry.party;
        Ok(true)
    }
}
