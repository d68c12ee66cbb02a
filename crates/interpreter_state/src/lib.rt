//! What a core of the slow interpreter holds beside its threads, and what an entry of its journal makes of that.
#![tactic(auto)]

mod arrivals;
mod datum;
mod held;
mod memory;
mod operation;

pub use arrivals::{Unfit, Woken, be_taken};
pub use datum::{Datum, Span};
pub use held::Held;
pub use memory::Memory;
pub use operation::{Asked, Operation};
