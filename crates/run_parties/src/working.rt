//! The worker as a party of a run.

ghost use Rattle.std.specs.Prelude.{◌≡◌, ◌<◌, ◌≤◌, ◌^◌, false, nat_lt, IfOk, OnOk, IsTrue};
ghost use Rattle.ac_links.specs.Journals.{last_of};
ghost use Rattle.file_worker.specs.Rounds.{GoesOn};
ghost use Rattle.file_worker.specs.Workers.{desk_of, loan_of, seen_of, told_of};
ghost use Rattle.run_parties.specs.Moving.{DeskStays, DeskStops};
ghost use Rattle.run_parties.specs.Working.{DeskWorked};
ghost use Rattle.run_parties.specs.inner.Working.{has_done};

use ac_base::NoMemory;
use ac_outside::{Disk, Gate};
use file_worker::{Round, Worker};

// Whether the round made an entry.
fn has_done(round: Round) -> bool
    ensures { result ≡ has_done round }
{
    matches!(round, Round::Did)
}

// Lets the worker do one round, and says whether it made an entry. Where it made none it can go on no
// further by what its ends tell.
fn do_round<D: Disk>(worker: &mut Worker<'_, '_, D>) -> Result<bool, NoMemory>
    requires { IsTrue (told_of D.told worker.old).is_ready }
    ensures later { GoesOn (seen_of D.told worker.old) (seen_of D.told worker.new) }
    ensures loan { loan_of worker.new ≡ loan_of worker.old }
    ensures bound { last_of 0 (desk_of worker.new).entries < 2 ^ 60 }
    ensures moved { IfOk result (λ it. it ≡ nat_lt (last_of 0 (desk_of worker.old).entries) (last_of 0 (desk_of worker.new).entries)) }
    ensures rests { IfOk result (λ it. it ≡ false → DeskStays (desk_of worker.old) (desk_of worker.new)
        × DeskStops (desk_of worker.new)) }
{
    // What holds of its ends at any time is asked for, for the proof.
    let _cores = worker.cores();
    let round = worker.round();
    let _last = worker.last();
    Ok(has_done(round?))
}

/// Lets the worker do rounds until one makes no entry, so that it can go on no further by what its ends
/// tell, and says whether any did.
///
/// Condition: the disk may be called.
pub(crate) fn work<D: Disk>(worker: &mut Worker<'_, '_, D>) -> Result<bool, NoMemory>
    requires { IsTrue (told_of D.told worker.old).is_ready }
    ensures later { GoesOn (seen_of D.told worker.old) (seen_of D.told worker.new) }
    ensures loan { loan_of worker.new ≡ loan_of worker.old }
    ensures bound { last_of 0 (desk_of worker.new).entries < 2 ^ 60 }
    ensures moved { IfOk result (λ it. it ≡ nat_lt (last_of 0 (desk_of worker.old).entries) (last_of 0 (desk_of worker.new).entries)) }
    ensures stops { OnOk result (DeskStops (desk_of worker.new)) }
    ensures rests { IfOk result (λ it. it ≡ false → DeskStays (desk_of worker.old) (desk_of worker.new)) }
{
    let before = worker.last();
    while do_round(worker)? {}
    Ok(before < worker.last())
}

/// How often in a row a party tries in vain in its part of a round.
pub(crate) const TRIES: u64 = 10_000;

// Rounds until so many in a row have made no entry, or all stamps are used.
fn keep_on<D: Disk, G: Gate>(
    worker: &mut Worker<'_, '_, D>,
    place: u32,
    gate: &G,
) -> Result<(), NoMemory>
    requires { IsTrue (told_of D.told worker.old).is_ready }
    ensures later { GoesOn (seen_of D.told worker.old) (seen_of D.told worker.new) }
    ensures loan { loan_of worker.new ≡ loan_of worker.old }
    ensures worked { OnOk result (DeskWorked 10000 (desk_of worker.old) (desk_of worker.new)) }
{
    gate.pass(place, worker.journal().len());
    let mut in_vain = 0;
    while in_vain < TRIES {
        let round = worker.round()?;
        // What holds of its last stamp at any time is asked for, for the proof.
        let _last = worker.last();
        match round {
            Round::Did => {
                in_vain = 0;
                gate.pass(place, worker.journal().len());
            }
            Round::Quiet | Round::NotYet => in_vain += 1,
            Round::ClockFull => return Ok(()),
        }
    }
    Ok(())
}

/// The worker's part of a round: rounds of its own until so many in a row have made no entry, or all stamps
/// are used; and whether it made an entry.
///
/// Condition: the disk may be called.
pub(crate) fn work_on<D: Disk, G: Gate>(
    worker: &mut Worker<'_, '_, D>,
    place: u32,
    gate: &G,
) -> Result<bool, NoMemory>
    requires { IsTrue (told_of D.told worker.old).is_ready }
    ensures later { GoesOn (seen_of D.told worker.old) (seen_of D.told worker.new) }
    ensures loan { loan_of worker.new ≡ loan_of worker.old }
    ensures bound { last_of 0 (desk_of worker.new).entries < 2 ^ 60 }
    ensures moved { IfOk result (λ it. it ≡ nat_lt (last_of 0 (desk_of worker.old).entries) (last_of 0 (desk_of worker.new).entries)) }
    ensures worked { OnOk result (DeskWorked 10000 (desk_of worker.old) (desk_of worker.new)) }
{
    let before = worker.last();
    let went = keep_on(worker, place, gate);
    let after = worker.last();
    went?;
    Ok(before < after)
}
