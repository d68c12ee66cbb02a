//! Instructions on the elements of arrays.

ghost use Rattle.std.specs.Prelude.{◌≡◌, ◌<◌, IfOk};
ghost use Rattle.core_state.specs.Frames.{within};

use ac_base::Trap;
use work_item::Place;

// The index of an element, or the trap where there is none.
pub fn within(place: Place, index: i64) -> Result<u32, Trap>
    ensures same { result ≡ within place index }
    ensures below { IfOk result (λ i. i < place.len) }
{
    if index >= 0 && index < i64::from(place.len) {
        Ok(index as u32)
    } else {
        Err(Trap::Index)
    }
}
