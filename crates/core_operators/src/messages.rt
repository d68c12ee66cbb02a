//! Messages out of the ints of an array and into them.

ghost use Rattle.std.specs.Prelude.{◌≡◌, ◌≤◌};
ghost use Rattle.work_item.specs.Conditions.{HomeLives};
ghost use Rattle.core_state.specs.Messages.{ints_at, with_ints_at, message_in};
ghost use Rattle.core_operators.specs.Carrying.{MakesMessage};

use ac_base::Message;
use work_item::{Cell, Frames, Place};

// The message of all elements of an array, as they are now.
fn message_at(frames: &Frames, array: Place) -> Message
    requires lives { HomeLives frames.now array.home }
    requires least { 1 ≤ array.len }
    requires most { array.len ≤ 16 }
    ensures { result ≡ ints_at frames.now array }
{
    let first = frames.read_at(array, 0);
    let mut message = Message::of(first);
    for index in 1..array.len {
        let value = frames.read_at(array, index);
        message.push(value);
    }
    message
}

/// What is sent of a cell: the int that it holds, or all elements of its array, as they are now; 0
/// where it holds neither.
///
/// Condition: where it holds an array, this lies in the globals or in a frame that lives, and has 1 to
/// 16 elements.
pub fn message_in(frames: &Frames, cell: Cell) -> Message
    requires { MakesMessage frames.now cell }
    ensures { result ≡ message_in frames.now cell }
{
    match cell {
        Cell::Array(place) => message_at(frames, place),
        Cell::Int(value) => Message::of(value),
        Cell::Block(_) => Message::of(0),
    }
}

/// Puts the ints of a message into the elements of an array, in order, as far as there are both.
///
/// Condition: the array lies in the globals or in a frame that lives.
pub fn put_message(frames: &mut Frames, into: Place, message: &Message)
    requires { HomeLives frames.old into.home }
    ensures { frames.new ≡ with_ints_at frames.old into message.now }
{
    let ints = message.as_slice();
    let count = ints.len().min(into.len as usize) as u32;
    for index in 0..count {
        frames.write_at(into, index, ints[index as usize]);
    }
}
