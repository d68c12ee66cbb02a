//! How one entry of a run stands to another.

ghost use Rattle.std.specs.Prelude.{◌≡◌, IfOk};
ghost use Rattle.order_program.specs.Asking.{IsDueOfEntries};
ghost use Rattle.order_program.specs.Lines.{order_line};

use crate::told::{Told, say, say_place};
use ac_base::NoMemory;
use ac_causal::{Causal, Order};
use std::alloc::Global;

fn order_line(order: Order) -> &'static str
    ensures { result.now ≡ order_line order }
{
    match order {
        Order::Same => "same\n",
        Order::Before => "before\n",
        Order::After => "after\n",
        Order::Concurrent => "concurrent\n",
    }
}

/// How the one entry stands to the other, or the first of the two numbers that is not that of an entry.
pub fn told_of_entries(
    alloc: Global,
    causal: &Causal<'_>,
    one: u64,
    other: u64,
) -> Result<Told, NoMemory>
    ensures { IfOk result (λ told. IsDueOfEntries causal.now.entries one other told.status.number told.text) }
{
    if one >= causal.len() {
        return say_place(alloc, 16, b"no entry ", one);
    }
    if other >= causal.len() {
        return say_place(alloc, 16, b"no entry ", other);
    }
    say(alloc, 0, order_line(causal.order(one, other)))
}
