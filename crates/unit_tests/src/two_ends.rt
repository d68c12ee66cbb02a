//! The two ends of one pair, each in a thread of its own.

ghost use Rattle.std.specs.Prelude.{◌≡◌, ◌<◌, ◌≤◌, []};
ghost use Rattle.channel_ends.specs.Pairs.{IsSameSend, IsSameRecv};

use ac_base::{Clock, NoMemory};
use channel_ends::{RecvEnd, SendEnd, pair, settle};
use completion_word::Words;
use core_channels::{Offering, Receiving, Withdrawing};
use rtrb::AnyItems;
use std::alloc::{AllocError, Global};
use std::test::Fail;
use std::thread::{Threads, join_mut};

const CALLS: u32 = 100_000;

// Offers in each call, or learns where there is no room, and withdraws each third offer at once. Each
// offer carries its number. It notes the numbers of those that are withdrawn, in order.
fn offer_all(
    send: &mut SendEnd<'_, u64, AnyItems>,
    withdrawn: &mut Vec<u64>,
) -> Result<(), AllocError>
    requires { send.old.notes.offers ≡ [] }
    ensures { IsSameSend send.old send.new }
{
    let mut clock = Clock::new(0);
    for _call in 0..CALLS {
        let value = send.offered();
        match send.offer(value, &mut clock) {
            Offering::Offered { number, .. } => {
                if number % 3 == 2 {
                    let answer = send.withdraw(number, &mut clock);
                    if matches!(answer, Withdrawing::Withdrawn { .. }) {
                        withdrawn.push(number)?;
                    }
                }
            }
            _ => {
                let _learned = send.learn(&mut clock);
            }
        }
    }
    Ok(())
}

// What a receiving end decided: the numbers and values of what it took, and the numbers of what it
// passed, each in order.
#[derive(Drop)]
struct Decided {
    taken: Vec<(u64, u64)>,
    passed: Vec<u64>,
}

// Takes in each of so many calls.
fn take_some(
    recv: &mut RecvEnd<'_, u64, AnyItems>,
    calls: u32,
    decided: &mut Decided,
    clock: &mut Clock,
) -> Result<(), AllocError>
    ensures { IsSameRecv recv.old recv.new }
{
    for _call in 0..calls {
        match recv.take(clock) {
            Receiving::Took { number, value, .. } => decided.taken.push((number, value))?,
            Receiving::Passed { number, .. } => decided.passed.push(number)?,
            _ => {}
        }
    }
    Ok(())
}

// Whether each of so many offers was decided once and in order, what was taken with the value that was
// offered, and just those passed that were withdrawn.
fn is_whole(decided: &Decided, withdrawn: &[u64], offered: u64) -> bool {
    let mut numbers = decided.taken.iter().zip(decided.taken.iter().skip(1));
    let rises = numbers.all(|(one, next)| one.0 < next.0);
    let mut taken = decided.taken.iter();
    let values = taken.all(|&(number, value)| value == number);
    let count = decided.taken.len() as u64 + decided.passed.len() as u64;
    rises && values && count == offered && decided.passed.as_slice() == withdrawn
}

fn in_two_threads(rt: &impl Threads, alloc: Global, places: u32) -> Result<bool, NoMemory>
    requires { (0 < places) × (places ≤ 64) }
{
    let (words, owner, peer) = Words::make(alloc, places)?;
    let (mut offering, mut taking) = pair::<u64, AnyItems>(alloc, &words, owner, peer, places)?;
    let mut withdrawn = Vec::new(alloc);
    let mut decided = Decided {
        taken: Vec::new(alloc),
        passed: Vec::new(alloc),
    };
    let mut clock = Clock::new(0);
    let send = &mut offering;
    let recv = &mut taking;
    let (offered, taken) = join_mut(
        rt,
        &mut || -> Result<(), AllocError>
            requires { send.now.notes.offers ≡ [] }
            ensures { IsSameSend send.entry.now send.exit.now }
        { offer_all(send, &mut withdrawn) },
        &mut || -> Result<(), AllocError>
            ensures { IsSameRecv recv.entry.now recv.exit.now }
        { take_some(recv, CALLS, &mut decided, &mut clock) },
    );
    offered?;
    taken?;
    settle(send, recv);
    take_some(recv, places, &mut decided, &mut clock)?;
    Ok(is_whole(&decided, withdrawn.as_slice(), send.offered()))
}

#[test]
fn two_threads_lose_and_double_nothing(rt: HostRuntime) -> Result<(), Fail> {
    for places in 1..4u32 {
        assert!(rt; in_two_threads(&rt, rt.alloc(), places)?);
    }
    Ok(())
}
