//! How many ints a Send or a Recv names, and how many a message of a channel has.

ghost use Rattle.std.specs.Prelude.{◌≡◌, IfOk, slice_set};
ghost use Rattle.ac_types.specs.inner.Seen.{name_seen};
ghost use Rattle.ac_types.specs.Widths.{length_meant, length_named, ints_of, carried_on, is_unlike, count_or_one, widths_in};

use ac_base::{List, MOST_INTS, NoMemory};
use ac_names::{Meaning, Scopes};
use ac_tree::Expr;
use std::alloc::Global;

/// What a Send or a Recv says of a channel: the length of the array that it sends or receives into, where that is known, and
/// else 1.
#[derive(Clone, Copy, Debug, PartialEq, Eq)]
pub struct Carried {
    pub channel: u32,
    pub len: Option<u32>,
}

fn length_meant(meaning: Option<Meaning>) -> Option<u32>
    ensures { result ≡ length_meant meaning }
{
    match meaning {
        Some(Meaning::GlobalArray { slot: _, len }) => Some(len),
        Some(
            Meaning::LocalArray {
                depth: _,
                slot: _,
                len,
            },
        ) => Some(len),
        Some(Meaning::ArrayParam(_)) => None,
        _ => Some(1),
    }
}

/// How many elements the value of a Send or the place of a Recv has.
pub fn length_named(scopes: &Scopes, expr: &Expr) -> Option<u32>
    ensures { result ≡ length_named (name_seen expr.now) scopes.now }
{
    match expr {
        Expr::Name { at: _, name } => length_meant(scopes.find(name)),
        Expr::Number { .. } => Some(1),
        Expr::Const { .. } => Some(1),
        Expr::Index { .. } => Some(1),
        Expr::Group { .. } => Some(1),
        Expr::Unary { .. } => Some(1),
        Expr::Chain { .. } => Some(1),
        Expr::Call { .. } => Some(1),
        Expr::Send { .. } => Some(1),
        Expr::Recv { .. } => Some(1),
        Expr::Read { .. } => Some(1),
        Expr::Write { .. } => Some(1),
    }
}

fn ints_of(len: Option<u32>) -> Option<u32>
    ensures { result ≡ ints_of len }
{
    match len {
        None => None,
        Some(len) => {
            if 1 <= len && len <= MOST_INTS {
                Some(len)
            } else {
                None
            }
        }
    }
}

/// What a Send or a Recv says of the channel that its name means.
pub fn carried_on(meaning: Option<Meaning>, len: Option<u32>) -> Option<Carried>
    ensures { result ≡ carried_on meaning len }
{
    match meaning {
        Some(Meaning::Channel(channel)) => Some(Carried { channel, len }),
        _ => None,
    }
}

/// Whether so many elements are not as many ints as a message of the channel has.
pub fn is_unlike(len: Option<u32>, width: Option<u32>) -> bool
    ensures { result ≡ is_unlike (ints_of len) width }
{
    match width {
        None => false,
        Some(width) => match ints_of(len) {
            None => true,
            Some(count) => count != width,
        },
    }
}

fn count_or_one(len: Option<u32>) -> u32
    ensures { result ≡ count_or_one (ints_of len) }
{
    match ints_of(len) {
        None => 1,
        Some(count) => count,
    }
}

/// Writes what is said of a channel, where there is such a channel.
#[tactic(auto, using(crate::proofs::Widths::past_the_end))]
fn write_width(list: &mut Vec<u32>, said: Carried)
    ensures { list.new.items ≡ slice_set list.old.items said.channel (count_or_one (ints_of said.len)) }
{
    let place = said.channel as usize;
    if place < list.len() {
        list[place] = count_or_one(said.len);
    }
}

/// How many ints a message of each of so many channels has. What is said first of a channel is written last.
pub fn widths(alloc: Global, carried: &[Carried], count: u64) -> Result<List<u32>, NoMemory>
    ensures { IfOk result (λ list. list ≡ widths_in carried.now 0 count) }
{
    let mut list = vec![in alloc; 1u32; count as usize]?;
    let mut left = carried.len();
    while left > 0 {
        left -= 1;
        write_width(&mut list, carried[left]);
    }
    Ok(List::from_vec(list))
}
