//! The parameters of functions.

ghost use Rattle.std.specs.Prelude.{◌≡◌, IfOk};
ghost use Rattle.ac_names.specs.Items.{kinds_in, param_at};

use crate::meaning::Meaning;
use ac_base::{List, NoMemory};
use ac_tree::Param;
use std::alloc::Global;

/// Whether each parameter is an array.
pub fn kinds_of(alloc: Global, params: &[Param]) -> Result<List<bool>, NoMemory>
    ensures { IfOk result (λ kinds. kinds ≡ kinds_in params.now) }
{
    let mut kinds = List::new(alloc);
    for param in params {
        kinds.push(param.is_array)?;
    }
    Ok(kinds)
}

/// What a parameter means that has that slot.
pub fn param_at(is_array: bool, slot: u32) -> Meaning
    ensures { result ≡ param_at is_array slot }
{
    if is_array {
        Meaning::ArrayParam(slot)
    } else {
        Meaning::Local { depth: 0, slot }
    }
}
