//! Where a program writes.

ghost use Rattle.std.specs.Prelude.{◌<◌, length, IfOk};
ghost use Rattle.std.specs.Io.{WritesAtMost};
ghost use Rattle.ac_outside.specs.Told.{SinkTold, WriteTook};
ghost use Rattle.ac_outside.specs.Causes.{HasCause};

use crate::failed::Failed;

/// What takes bytes, one after another.
///
/// What it tells is for clauses alone, and of the bytes it may tell nothing. Its count of faults
/// never falls. It rises, or stands at its last value, in each call that answers `Failed`, and in
/// no other.
pub trait Sink {
    // the bytes that it has taken, and how often a call failed
    ghost told: { Self → SinkTold };

    /// Appends a prefix of the piece, which is not empty where the piece is not, and gives its
    /// length. `Failed` has taken nothing.
    fn write(&mut self, piece: &[u8]) -> Result<usize, Failed>
        ensures bound { WritesAtMost result piece.now }
        ensures moves { IfOk result (λ count. 0 < length piece.now → 0 < count) }
        ensures bytes { WriteTook (told self.old).held (told self.new).held result piece.now }
        ensures cause { HasCause (told self.old).faults (told self.new).faults result };
}
