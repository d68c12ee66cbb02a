//! Requests by their numbers.

ghost use Rattle.std.specs.Prelude.{◌≡◌, find, is_some};
ghost use Rattle.cancel_scope.specs.Outstanding.{is_begun};

use cancel_scope::Outstanding;

/// Whether a request has begun on a link under that number.
pub fn has_begun(outstanding: &Outstanding, link: u32, number: u64) -> bool
    ensures { result ≡ is_some (find (is_begun link number) outstanding.now.operations) }
{
    for place in 0..outstanding.len() {
        let operation = outstanding.get(place);
        if operation.is_begun(link, number) {
            return true;
        }
    }
    false
}
