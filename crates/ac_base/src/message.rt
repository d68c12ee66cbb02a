//! The ints that one message carries.

ghost use Rattle.std.specs.Prelude.{◌≡◌, [], ◌∷◌, ◌++◌, ◌<◌, ◌≤◌, length, slice_get, Some};
ghost use Rattle.ac_base.specs.Messages.{ints_eq};

use std::marker::Model;

/// The most ints that a message may have.
pub const MOST_INTS: u32 = 16;

const PLACES: usize = MOST_INTS as usize;

/// What a channel carries: 1 to 16 ints. It takes no memory.
///
/// Contracts see the list of its ints.
#[derive(Clone, Copy, Debug)]
pub struct Message {
    count: u32,
    ints: [i64; PLACES],
}

impl Model for Message {
    ghost use Rattle.std.specs.Prelude.{◌≡◌, ℕ, ◌≤◌, ◌-◌, ◌++◌, ℤ, pos, List, length, take, drop, replicate};
    ghost use Rattle.std.specs.Coded.{coded_list, coded_ℤ};
    ghost use Rattle.std.proofs.Common.{◌∙◌, ap, arith, length-take-le, sym, take-append-drop};

    ghost Value = { List ℤ };

    ghost coded = { coded_list coded_ℤ };

    ghost view = { λ it. take it.count it.ints };

    // The places behind the ints hold 0.
    ghost invariant = { λ it. (1 ≤ it.count) × (it.count ≤ 16) × (length it.ints ≡ 16)
        × (drop it.count it.ints ≡ replicate (16 - it.count) (pos 0)) };

    ghost inverse = { λ ints. record { count = length ints; ints = ints ++ replicate (16 - length ints) (pos 0) } };

    ghost inverse_ok = { λ it h i. record {
      count = length-take-le it.count it.ints (omega (arith, h.1, h.2)) i;
      ints = (ap (λ (n : ℕ). take it.count it.ints ++ replicate (16 - n) (pos 0))
          (length-take-le it.count it.ints (omega (arith, h.1, h.2)))
          ∙ (ap (λ (rest : List ℤ). take it.count it.ints ++ rest) (sym h.3) ∙ take-append-drop it.count it.ints)) i;
    } };
}

impl Message {
    /// A message of one int.
    pub fn of(value: i64) -> Message
        ensures { result ≡ value ∷ [] }
    {
        let mut ints = [0i64; PLACES];
        ints[0] = value;
        Message { count: 1, ints }
    }

    /// Appends an int.
    ///
    /// Condition: the message has fewer than 16 ints.
    pub fn push(&mut self, value: i64)
        requires { length self.old < 16 }
        ensures { self.new ≡ self.old ++ value ∷ [] }
    {
        self.ints[self.count as usize] = value;
        self.count += 1;
    }

    /// The number of its ints.
    pub fn len(&self) -> u32
        ensures { result ≡ length self.now }
    {
        self.count
    }

    /// The int at a place, counted from 0.
    ///
    /// Condition: the place is below the number of ints.
    pub fn get(&self, index: u32) -> i64
        requires { index < length self.now }
        ensures { slice_get self.now index ≡ Some result }
    {
        self.ints[index as usize]
    }

    /// The ints, of which there are 1 to 16.
    pub fn as_slice(&self) -> &[i64]
        ensures same { result.now ≡ self.now }
        ensures some { 1 ≤ length self.now }
        ensures few { length self.now ≤ 16 }
    {
        &self.ints[..self.count as usize]
    }

    /// Whether the other message has the same ints.
    pub fn equals(&self, other: &Message) -> bool
        ensures { result ≡ ints_eq self.now other.now }
    {
        self.as_slice() == other.as_slice()
    }
}
