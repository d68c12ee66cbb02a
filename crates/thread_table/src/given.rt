//! What a thread has of an operation that has ended.

use work_item::{Cell, Item};

/// The value of an operation, for the thread that has waited for its end.
#[derive(Clone, Copy, Debug)]
pub struct Given {
    pub item: Item,
    pub value: Cell,
}
