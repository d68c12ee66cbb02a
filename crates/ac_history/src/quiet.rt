//! Whether a run is quiet: each core has stopped, and no link has anything for one that is idle.

ghost use Rattle.std.specs.Prelude.{◌≡◌, ◌↔◌, length, IsTrue};
ghost use Rattle.std.specs.List.{list_any};
ghost use Rattle.ac_history.specs.Quiet.{has_stopped, is_waiting, owner_in, peer_in, IsQuiet};
ghost use Rattle.ac_history.specs.inner.Resting.{has_for, can_go_on, core_rests, idles, link_rests, cores_rest, links_rest};

use crate::links::Links;
use ac_base::{CoreEnd, EndWord, Phase, Waiting};

/// The parties of a link: the one that makes its offers, and the one that takes them.
#[derive(Clone, Copy, Debug, PartialEq, Eq)]
pub struct LinkParties {
    pub owner: u32,
    pub peer: u32,
}

fn has_stopped(core: &CoreEnd) -> bool
    ensures { result ≡ has_stopped core.now }
{
    !matches!(core.word, EndWord::Stalled) || core.idle
}

fn is_waiting(phase: Phase) -> bool
    ensures { result ≡ is_waiting phase }
{
    matches!(phase, Phase::Waiting)
}

// Whether the link has what an operation of the party waits for: room for an offer of its own, or
// an offer to it.
fn has_for(links: &Links, link: usize, parties: Option<LinkParties>, party: usize) -> bool
    ensures { result ≡ has_for links.now link parties party }
{
    match parties {
        Some(parties) => {
            (parties.owner as usize == party && links.has_room(link))
                || (parties.peer as usize == party && links.has_front(link))
        }
        None => false,
    }
}

// Whether the operation waits for what its link has.
fn can_go_on(links: &Links, parties: &[LinkParties], party: usize, operation: &Waiting) -> bool
    ensures { result ≡ can_go_on links.now parties.now party operation.now }
{
    let link = operation.link as usize;
    is_waiting(operation.phase) && has_for(links, link, parties.get(link).copied(), party)
}

fn some_can_go_on(
    links: &Links,
    parties: &[LinkParties],
    party: usize,
    operations: &[Waiting],
) -> bool
    ensures { result ≡ list_any (can_go_on links.now parties.now party) operations.now }
{
    operations
        .iter()
        .any(|operation| can_go_on(links, parties, party, operation))
}

// Whether the core has stopped, and if it is idle, none of its operations can go on.
fn core_rests(links: &Links, parties: &[LinkParties], party: usize, core: &CoreEnd) -> bool
    ensures { result ≡ core_rests links.now parties.now party core.now }
{
    has_stopped(core)
        && !(core.idle && some_can_go_on(links, parties, party, core.waiting.as_slice()))
}

fn idles(cores: &[CoreEnd], core: u32) -> bool
    ensures { result ≡ idles cores.now core }
{
    match cores.get(core as usize) {
        Some(core) => core.idle,
        None => false,
    }
}

// Whether the owner of the link, if it is idle, has had all that became of its offers, and no
// request is left.
fn link_rests(links: &Links, cores: &[CoreEnd], link: usize, parties: &LinkParties) -> bool
    ensures { result ≡ link_rests links.now cores.now link parties.now }
{
    !(idles(cores, parties.owner) && links.has_news(link))
        && !(links.has_requests(link) && links.has_front(link))
}

fn cores_rest(links: &Links, parties: &[LinkParties], cores: &[CoreEnd]) -> bool
    ensures { result ≡ cores_rest links.now parties.now cores.now }
{
    cores
        .iter()
        .enumerate()
        .all(|(party, core)| core_rests(links, parties, party, core))
}

fn links_rest(links: &Links, parties: &[LinkParties], cores: &[CoreEnd]) -> bool
    ensures { result ≡ links_rest links.now parties.now cores.now }
{
    parties
        .iter()
        .enumerate()
        .all(|(link, parties)| link_rests(links, cores, link, parties))
}

/// Whether each core has stopped, and nothing on any link waits for one that is idle, or for the
/// worker.
pub fn is_quiet(links: &Links, parties: &[LinkParties], cores: &[CoreEnd]) -> bool
    requires { length parties.now ≡ length links.now.links }
    ensures { IsTrue result ↔ IsQuiet (owner_in parties.now) (peer_in parties.now) links.now cores.now }
{
    cores_rest(links, parties, cores) && links_rest(links, parties, cores)
}
