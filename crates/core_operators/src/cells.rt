//! Cells, each read as the kind that is asked for.

ghost use Rattle.std.specs.Prelude.{◌≡◌};
ghost use Rattle.work_item.specs.Store.{int_in, place_in};

use work_item::{Cell, Place};

/// The int that a cell holds, and 0 where it holds none.
pub fn int_in(cell: Cell) -> i64
    ensures { result ≡ int_in cell }
{
    match cell {
        Cell::Int(value) => value,
        _ => 0,
    }
}

/// The reference that a cell holds; where it holds none, that to no element.
pub fn place_in(cell: Cell) -> Place
    ensures { result ≡ place_in cell }
{
    match cell {
        Cell::Array(place) => place,
        _ => Place {
            home: None,
            start: 0,
            len: 0,
        },
    }
}
