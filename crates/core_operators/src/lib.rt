//! Numbers, texts of `printf` and indices: what source and code of a core compute alike.
#![tactic(auto)]

mod arithmetic;
mod cells;
mod elements;
mod format;
mod messages;
mod requests;

pub use arithmetic::{
    both_bits, difference, differing_bits, either_bits, flipped, is_at_most, is_equal, is_less,
    is_not_equal, low_byte, negated, not_true, product, quotient, remainder, shifted_left,
    shifted_right, sum, truth,
};
pub use cells::{int_in, place_in};
pub use elements::within;
pub use format::add_formatted;
pub use messages::{message_in, put_message};
pub use requests::{Range, bytes_at, range_of, take_answer};
