//! Whether a history is legal and its reads are answered by the files, entry by entry.

ghost use Rattle.std.specs.Prelude.{◌≡◌, ◌↔◌, IsTrue, IfOk, OnErr, ◌<◌, ◌+◌, length, slice_get, Some, if◌then◌else◌};
ghost use Rattle.ac_history.specs.History.{fits, after};
ghost use Rattle.file_bytes.specs.Overwritten.{overwritten};
ghost use Rattle.ac_history.specs.Files.{written};
ghost use Rattle.ac_history.specs.Quiet.{owner_in, peer_in, IsQuiet};
ghost use Rattle.ac_history.specs.Served.{begun, can_follow, state_after};

use crate::files::{Files, bytes_in};
use crate::links::Links;
use crate::quiet::{LinkParties, is_quiet};
use ac_base::{Bytes, CoreEnd, Event, List, NoMemory, Payload, Stamped};
use file_bytes::overwrite;
use std::alloc::Global;
use std::marker::Model;

// Takes the entry by which these bytes of a file were written, and writes them. Room for them is
// made before, so that nothing can fail once the entry is taken.
fn step_and_write(
    links: &mut Links,
    entry: &Stamped,
    file: &mut Vec<u8>,
    from: u32,
    bytes: &[u8],
) -> Result<bool, NoMemory>
    ensures answer { IfOk result (λ b. b ≡ fits links.old entry.now) }
    ensures links { IfOk result (λ b. links.new ≡ (if b then after links.old entry.now else links.old)) }
    ensures file { IfOk result (λ b. file.new.items ≡ (if b then overwritten file.old.items from bytes.now else file.old.items)) }
    ensures err { OnErr result ((links.new ≡ links.old) × (file.new.items ≡ file.old.items)) }
{
    let from = from as usize;
    let end = from + bytes.len();
    file.reserve(end.saturating_sub(file.len()))?;
    if !links.step(entry)? {
        return Ok(false);
    }
    overwrite(file, from, bytes);
    Ok(true)
}

/// The links, the stamps and the files after the entries so far.
#[derive(Debug, Drop)]
pub struct Legal {
    links: Links,
    files: Files,
    alloc: Global,
}

impl Model for Legal {
    ghost use Rattle.ac_history.specs.Served.{HistoryState};

    ghost Value = { HistoryState };

    ghost view = { λ it. record { past = it.links; files = it.files } };
}

impl Legal {
    /// Nothing has happened on links of these capacities, of which the last ones are those of the
    /// cores' requests, and the messages of the others have so many ints. The files begin with these
    /// bytes, and further ones, up to sixteen, empty.
    ///
    /// Condition: there is one width per channel, and then one link for each core.
    pub fn new(
        alloc: Global,
        capacities: &List<u32>,
        widths: &List<u32>,
        cores: u32,
        start: &List<Bytes>,
    ) -> Result<Legal, NoMemory>
        requires { length widths.now + cores ≡ length capacities.now }
        ensures { IfOk result (λ it. it ≡ begun capacities.now widths.now cores start.now) }
    {
        Ok(Legal {
            links: Links::new(alloc, capacities, widths, cores)?,
            files: Files::new(alloc, start)?,
            alloc,
        })
    }

    /// Takes the entry, where the links, the stamps and the files allow it, and says whether it did.
    pub fn step(&mut self, entry: &Stamped) -> Result<bool, NoMemory>
        ensures answer { IfOk result (λ b. b ≡ can_follow self.old entry.now) }
        ensures state { IfOk result (λ b. self.new ≡ (if b then state_after self.old entry.now else self.old)) }
        ensures err { OnErr result (self.new ≡ self.old) }
    {
        let Event::Did {
            link,
            number,
            answer,
        } = &entry.entry.event
        else {
            return self.links.step(entry);
        };
        let Some(payload) = self.links.payload(*link, *number) else {
            return self.links.step(entry);
        };
        if !self.files.serves(payload, answer) {
            return Ok(false);
        }
        let Payload::Write { file, from, bytes } = payload else {
            return self.links.step(entry);
        };
        let (file, from) = (*file, *from);
        let bytes = Vec::from_slice(self.alloc, bytes_in(answer, bytes.as_slice()))?;
        self.write(entry, file, from, bytes.as_slice())
    }

    // Takes the entry by which these bytes of a file were written. Its bytes are taken out and put
    // back, and not copied.
    fn write(
        &mut self,
        entry: &Stamped,
        file: u32,
        from: u32,
        bytes: &[u8],
    ) -> Result<bool, NoMemory>
        ensures answer { IfOk result (λ b. b ≡ fits self.old.past entry.now) }
        ensures past { IfOk result (λ b. self.new.past ≡ (if b then after self.old.past entry.now else self.old.past)) }
        ensures files { IfOk result (λ b. self.new.files ≡ (if b then written self.old.files file from bytes.now else self.old.files)) }
        ensures err { OnErr result (self.new ≡ self.old) }
    {
        let mut whole = self.files.take(self.alloc, file).into_vec();
        let taken = step_and_write(&mut self.links, entry, &mut whole, from, bytes);
        self.files.put(file, List::from_vec(whole));
        taken
    }

    /// Whether a run with this history is quiet, where its links have these parties and its cores
    /// these ends: each core has stopped, and nothing on any link waits for one that is idle, or for
    /// the worker.
    pub fn is_quiet(&self, parties: &List<LinkParties>, cores: &List<CoreEnd>) -> bool
        requires { length parties.now ≡ length self.now.past.links }
        ensures { IsTrue result ↔ IsQuiet (owner_in parties.now) (peer_in parties.now) self.now.past cores.now }
    {
        is_quiet(&self.links, parties.as_slice(), cores.as_slice())
    }

    /// The bytes of one of the sixteen files.
    pub fn contents(&self, file: u32) -> &Bytes
        requires { file < 16 }
        ensures { slice_get self.now.files file ≡ Some result.now }
    {
        self.files.contents(file)
    }
}
