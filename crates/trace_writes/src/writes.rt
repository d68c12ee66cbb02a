//! The writes of a history.

ghost use Rattle.std.specs.Prelude.{◌≡◌, ◌++◌, ℕ, List, [], replicate, IfOk, OnOk};
ghost use Rattle.ac_history.specs.Files.{bytes_in, deeds};
ghost use Rattle.ac_history.specs.History.{start};
ghost use Rattle.trace_writes.specs.Writes.{write_of, writes_of};
ghost use Rattle.trace_writes.specs.inner.Finding.{entered, writes_at};

use crate::write::FileWrite;
use ac_base::{Answer, Event, List, NoMemory, Payload, Stamped};
use ac_links::{Link, link_of};
use std::alloc::Global;

// Links on which nothing has been offered.
fn no_offers(alloc: Global, links: u64) -> Result<Vec<Link>, NoMemory>
    ensures { IfOk result (λ it. it.items ≡ replicate links []) }
{
    let mut all = Vec::new(alloc);
    for _link in 0..links {
        all.push(Link::new(alloc))?;
    }
    Ok(all)
}

// The bytes of a write that went in.
fn bytes_in<'a>(answer: &Answer, bytes: &'a [u8]) -> &'a [u8]
    ensures { result.now ≡ bytes_in answer.now bytes.now }
{
    match answer {
        Answer::Bytes(_) => &[],
        Answer::Count(_) => bytes,
        Answer::Fault(count) => &bytes[..bytes.len().min(*count as usize)],
    }
}

// The write that was done with this answer, if the request is one.
fn add_write(
    alloc: Global,
    payload: &Payload,
    answer: &Answer,
    writes: &mut List<FileWrite>,
) -> Result<(), NoMemory>
    ensures { OnOk result (writes.new ≡ writes.old ++ write_of payload.now answer.now) }
{
    if let Payload::Write { file, from, bytes } = payload {
        let bytes = List::from_vec(Vec::from_slice(alloc, bytes_in(answer, bytes.as_slice()))?);
        writes.push(FileWrite {
            file: *file,
            from: *from,
            bytes,
        })?;
    }
    Ok(())
}

// The write by this entry, if it is one.
fn add_entry(
    alloc: Global,
    links: &[Link],
    entry: &Stamped,
    writes: &mut List<FileWrite>,
) -> Result<(), NoMemory>
    ensures { OnOk result (writes.new ≡ writes.old ++ writes_at links.now entry.now) }
{
    let Event::Did {
        link,
        number,
        answer,
    } = &entry.entry.event
    else {
        return Ok(());
    };
    let Some(link) = links.get(*link as usize) else {
        return Ok(());
    };
    let Some(payload) = link.payload(*number) else {
        return Ok(());
    };
    add_write(alloc, payload, answer, writes)
}

// What the entry makes of its link.
fn enter(alloc: Global, links: &mut [Link], entry: &Stamped) -> Result<(), NoMemory>
    ensures { OnOk result (links.new ≡ entered links.old entry.now) }
{
    let link = link_of(&entry.entry.event) as usize;
    if link < links.len() {
        links[link].add(alloc, entry.entry.stamp, &entry.entry.event)?;
    }
    Ok(())
}

/// The writes that are done in a history on links of these capacities, in its order, each with the
/// bytes that its answer tells.
pub fn writes_of(
    alloc: Global,
    capacities: &[u32],
    entries: &[Stamped],
) -> Result<List<FileWrite>, NoMemory>
    ensures { (widths : List ℕ) (cores : ℕ)
        → IfOk result (λ writes. writes ≡ writes_of (deeds (start capacities.now widths cores) entries.now)) }
{
    let mut links = no_offers(alloc, capacities.len() as u64)?;
    let mut writes = List::new(alloc);
    for entry in entries {
        add_entry(alloc, links.as_slice(), entry, &mut writes)?;
        enter(alloc, links.as_mut_slice(), entry)?;
    }
    Ok(writes)
}
