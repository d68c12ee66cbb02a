//! The words of one link, by two threads.

ghost use Rattle.std.specs.Prelude.{◌≡◌, ◌<◌, ◌≤◌, IfOk};
ghost use Rattle.completion_word.specs.Link.{new_owner};
ghost use Rattle.completion_word.specs.Seats.{owner_of, IsOwnerOf, IsPeerOf, places_of};

use ac_base::NoMemory;
use completion_word::{Closed, Learnt, Look, OwnerSeat, PeerSeat, Taking, Withdrawal, Words};
use std::alloc::{AllocError, Global};
use std::test::Fail;
use std::thread::{Threads, join};

// The greatest stamp.
const LAST_STAMP: u64 = (1 << 60) - 1;

// What the owner's thread noted: how many offers it posted, how each withdrawal ended, by the
// number of its offer, and what it learned, in order.
#[derive(Drop)]
struct OwnerNotes {
    posted: u64,
    withdrawals: Vec<(u64, Withdrawal)>,
    learned: Vec<Learnt>,
}

// Makes a call in each turn: a post where there is room, and else a withdrawal of the last offer or
// a load of the first.
fn offer_all(
    alloc: Global,
    words: &Words,
    mut owner: OwnerSeat,
    places: u64,
    turns: u32,
) -> Result<(OwnerSeat, OwnerNotes), AllocError>
    requires seat { IsOwnerOf owner words.now × (owner_of owner ≡ new_owner) }
    requires places { places_of words.now ≡ places }
    ensures { IfOk result (λ r. IsOwnerOf r.0 words.now) }
{
    let mut withdrawals = Vec::new(alloc);
    let mut learned = Vec::new(alloc);
    let mut posted = 0u64;
    let mut stamp = 0u64;
    // Whether the last offer is neither withdrawn nor found taken.
    let mut open = false;
    for turn in 0..turns {
        if owner.offered() < owner.learned() + places {
            stamp += 1;
            words.post(&mut owner, stamp);
            posted += 1;
            open = true;
        } else if open && turn % 2 == 0 {
            let number = owner.offered() - 1;
            let answer = words.withdraw(&mut owner, number, stamp + 1);
            if answer == Withdrawal::Withdrawn {
                stamp += 1;
            }
            open = false;
            withdrawals.push((number, answer))?;
        } else {
            let told = words.learn(&mut owner);
            if told != Learnt::Undecided {
                learned.push(told)?;
            }
        }
    }
    let notes = OwnerNotes {
        posted,
        withdrawals,
        learned,
    };
    Ok((owner, notes))
}

// Looks in each turn, and decides what it sees. Returns its decisions, in order.
fn decide_all(
    alloc: Global,
    words: &Words,
    mut peer: PeerSeat,
    turns: u32,
) -> Result<(PeerSeat, Vec<Learnt>), AllocError>
    requires { IsPeerOf peer words.now }
    ensures { IfOk result (λ r. IsPeerOf r.0 words.now) }
{
    let mut decisions = Vec::new(alloc);
    for _turn in 0..turns {
        let mut seen = words.look(&mut peer);
        if let Look::Offered { stamp } = seen {
            if stamp < LAST_STAMP {
                match words.take(&mut peer, stamp + 1) {
                    Taking::Won => decisions.push(Learnt::Taken { stamp: stamp + 1 })?,
                    Taking::Withdrawn { stamp } => seen = Look::Withdrawn { stamp },
                }
            }
        }
        if let Look::Withdrawn { stamp } = seen {
            if stamp < LAST_STAMP {
                words.pass(&mut peer, stamp + 1);
                decisions.push(Learnt::Passed { stamp: stamp + 1 })?;
            }
        }
    }
    Ok((peer, decisions))
}

// Whether a withdrawal ended as its offer was decided: found taken exactly where it was taken, with
// that stamp.
fn is_fate(answer: Withdrawal, decision: Option<&Learnt>) -> bool {
    match (answer, decision) {
        (Withdrawal::Taken { stamp: found }, Some(Learnt::Taken { stamp })) => found == *stamp,
        (Withdrawal::Withdrawn, Some(Learnt::Passed { .. })) => true,
        (Withdrawal::Withdrawn, None) => true,
        _ => false,
    }
}

// Whether what the owner's thread noted is what the peer's thread decided.
fn are_fates(notes: &OwnerNotes, decisions: &[Learnt]) -> bool {
    let learned = notes.learned.iter().zip(decisions).all(|(a, b)| a == b);
    let ended = notes.withdrawals.iter().all(|&(number, answer)| is_fate(
        answer,
        decisions.get(number as usize),
    ));
    let withdrawn = notes.withdrawals.iter().filter(|&&(number, answer)| answer
        == Withdrawal::Withdrawn
        && number < decisions.len() as u64);
    let passed = decisions
        .iter()
        .filter(|&&decision| matches!(decision, Learnt::Passed { .. }));
    learned && ended && withdrawn.count() == passed.count()
}

// What a meeting of the two sides says, and then the end of the link.
fn ended(words: Words, mut owner: OwnerSeat, mut peer: PeerSeat) -> (Closed, Closed)
    requires { IsOwnerOf owner words × IsPeerOf peer words }
{
    let met = words.meet(&mut owner, &mut peer);
    (met, words.close(owner, peer))
}

// What one thread noted that offers, another that decides, and both together at the end.
#[derive(Drop)]
struct Noted {
    offering: OwnerNotes,
    deciding: Vec<Learnt>,
    met: Closed,
    closed: Closed,
}

fn in_two_threads(rt: &impl Threads, alloc: Global, places: u32) -> Result<Noted, NoMemory>
    requires { (0 < places) × (places ≤ 64) }
{
    let (words, owner, peer) = Words::make(alloc, places)?;
    let shared = &words;
    let (offered, decided) = join(
        rt,
        move ||
            requires { IsOwnerOf owner shared.now × (owner_of owner ≡ new_owner) × (places_of shared.now ≡ places) }
            ensures { IfOk result (λ r. IsOwnerOf r.0 shared.entry.now) }
        { offer_all(alloc, shared, owner, u64::from(places), 20000) },
        move ||
            requires { IsPeerOf peer shared.now }
            ensures { IfOk result (λ r. IsPeerOf r.0 shared.entry.now) }
        { decide_all(alloc, shared, peer, 20000) },
    );
    let (owner, offering) = offered?;
    let (peer, deciding) = decided?;
    let (met, closed) = ended(words, owner, peer);
    Ok(Noted {
        offering,
        deciding,
        met,
        closed,
    })
}

#[test]
fn two_threads_note_the_same_fates(rt: HostRuntime) -> Result<(), Fail> {
    for round in 0..40u32 {
        let noted = in_two_threads(&rt, rt.alloc(), round % 3 + 1)?;
        let counts = Closed {
            offered: noted.offering.posted,
            decided: noted.deciding.len() as u64,
            learned: noted.offering.learned.len() as u64,
        };
        assert_eq!(rt; noted.met, counts);
        assert_eq!(rt; noted.closed, counts);
        assert!(rt; are_fates(&noted.offering, &noted.deciding));
    }
    Ok(())
}
