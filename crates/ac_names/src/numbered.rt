//! What stands in a tree by its number.

ghost use Rattle.std.specs.Prelude.{◌≡◌, ◌<◌, length, slice_get, Some};
ghost use Rattle.ac_names.specs.Numbered.{core_names, capacities, capacity_size, file_paths};

use ac_base::{Bytes, Name};
use ac_tree::Item;

/// The name of the core of that number.
pub fn find_core(items: &[Item], number: u32) -> &Name
    requires { number < length (core_names items.now) }
    ensures { slice_get (core_names items.now) number ≡ Some result.now }
{
    let mut left = number;
    for item in items {
        if let Item::Core {
            at: _,
            name,
            entry: _,
        } = item
        {
            if left == 0 {
                return name;
            }
            left -= 1;
        }
    }
    unreachable!()
}

/// The capacity of the channel of that number.
pub fn find_capacity(items: &[Item], number: u32) -> i64
    requires { number < length (capacities items.now) }
    ensures { slice_get (capacities items.now) number ≡ Some result }
{
    let mut left = number;
    for item in items {
        if let Item::Channel {
            at: _,
            name: _,
            from: _,
            to: _,
            cap,
        } = item
        {
            if left == 0 {
                return *cap;
            }
            left -= 1;
        }
    }
    unreachable!()
}

/// A capacity, or 0 where it is none.
pub fn capacity_size(cap: i64) -> u32
    ensures { result ≡ capacity_size cap }
{
    if 0 <= cap && cap <= 64 { cap as u32 } else { 0 }
}

/// The path of the file of that number.
pub fn find_path(items: &[Item], number: u32) -> &Bytes
    requires { number < length (file_paths items.now) }
    ensures { slice_get (file_paths items.now) number ≡ Some result.now }
{
    let mut left = number;
    for item in items {
        if let Item::File {
            at: _,
            name: _,
            path,
        } = item
        {
            if left == 0 {
                return path;
            }
            left -= 1;
        }
    }
    unreachable!()
}
