//! Where a program reads.

ghost use Rattle.std.specs.Prelude.{◌≡◌, ℕ, List, IsTrue, IsSome, IfSome, OnOk, OnErr, Some};
ghost use Rattle.std.specs.Io.{ReadsAtMost};
ghost use Rattle.std.specs.Io.KnownBytes.{ReadConsumes};
ghost use Rattle.ac_outside.specs.Told.{CountsOne, LibraryTold, OpenedJust, OpenedNone};
ghost use Rattle.ac_outside.specs.Causes.{HasCause};

use crate::failed::Failed;

/// Texts by name, of which one at a time is open.
///
/// What it tells is for clauses alone, and of its texts, of what is left of the open one and of
/// its calls it may tell nothing. Its count of faults never falls. It rises, or stands at its
/// last value, in each call that answers `Failed`, and in no other.
pub trait Library {
    // its texts, the open one and what is left of it, what was opened, how often it was read, and how
    // often a call failed
    ghost told: { Self → LibraryTold };

    /// Starts the text of a name. After `Failed` the text that was open before is still open, and
    /// as much of it is left.
    fn open_text(&mut self, name: &str) -> Result<(), Failed>
        ensures same { (told self.new).text_at ≡ (told self.old).text_at }
        ensures opened { OnOk result (IsTrue (told self.new).is_open) }
        ensures start { OnOk result (IfSome ((told self.old).text_at name.now) (λ text. (told self.new).left ≡ Some text)) }
        ensures still_open { OnErr result ((told self.new).is_open ≡ (told self.old).is_open) }
        ensures still_left { OnErr result ((told self.new).left ≡ (told self.old).left) }
        ensures just { OpenedJust (told self.old) (told self.new) name.now }
        ensures unread { (told self.new).reads ≡ (told self.old).reads }
        ensures cause { HasCause (told self.old).faults (told self.new).faults result };

    /// Takes a prefix of what is left of the open text, at most as long as the slice, and gives its
    /// length. 0 for a slice that is not empty is the end.
    fn read(&mut self, into: &mut [u8]) -> Result<usize, Failed>
        requires { IsTrue (told self.old).is_open }
        ensures same { (told self.new).text_at ≡ (told self.old).text_at }
        ensures still_open { IsTrue (told self.new).is_open }
        ensures none { OpenedNone (told self.old) (told self.new) }
        ensures once { CountsOne (told self.old).reads (told self.new).reads }
        ensures bound { ReadsAtMost result into.new }
        ensures bytes { ReadConsumes (told self.old).left (told self.new).left result into.new }
        ensures cause { HasCause (told self.old).faults (told self.new).faults result };

    // a library that tells its texts tells the number of its calls
    ghost tells_opens: { (library : Self) (name : List ℕ) → IsSome ((told library).text_at name) → IsSome (told library).opens };

    ghost tells_reads: { (library : Self) (name : List ℕ) → IsSome ((told library).text_at name) → IsSome (told library).reads };
}
