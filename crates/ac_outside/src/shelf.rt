//! Texts by name in memory, of which one is open.

ghost use Rattle.std.specs.Prelude.{◌≡◌, [], Some, None, is_some, if◌then◌else◌, IsSome, position};
ghost use Rattle.std.specs.Str.{bytes_eq};
ghost use Rattle.ac_outside.specs.Texts.{text_of, TakesFront};

use ac_base::{Bytes, List};
use std::marker::Model;

/// A text and its name.
#[derive(Debug, Drop)]
pub struct NamedBytes {
    pub name: Bytes,
    pub bytes: Bytes,
}

// The place of the first text with this name.
fn place_of(texts: &[NamedBytes], name: &[u8]) -> Option<usize>
    ensures { result ≡ position (λ text. bytes_eq text.name name.now) texts.now }
{
    texts.iter().position(|text| text.name.as_slice() == name)
}

/// Texts by name. The open one is that at `place`, from byte `at` on, and the empty text where
/// there is none at that place.
#[derive(Debug, Drop)]
pub(crate) struct Shelf {
    texts: List<NamedBytes>,
    is_open: bool,
    place: usize,
    at: usize,
}

impl Model for Shelf {
    ghost use Rattle.std.specs.Prelude.{if◌then◌else◌, Some, None};
    ghost use Rattle.ac_outside.specs.Texts.{rest_at};
    ghost use Rattle.ac_outside.specs.Views.{OpenTexts};

    ghost Value = { OpenTexts };

    ghost view = { λ s. record { texts = s.texts; left = (if s.is_open then Some (rest_at s.texts s.place s.at) else None) } };
}

impl Shelf {
    /// These texts, none of them open.
    pub(crate) fn new(texts: List<NamedBytes>) -> Shelf
        ensures { result ≡ record { texts = texts; left = None } }
    {
        Shelf {
            texts,
            is_open: false,
            place: 0,
            at: 0,
        }
    }

    /// Starts the first text with this name, and says whether there is one. Where there is none
    /// nothing changes.
    pub(crate) fn open(&mut self, name: &[u8]) -> bool
        ensures held { result ≡ is_some (text_of self.old.texts name.now) }
        ensures after { self.new ≡ record self.old { left = (if result then text_of self.old.texts name.now else self.old.left) } }
    {
        let Some(place) = place_of(self.texts.as_slice(), name) else {
            return false;
        };
        self.is_open = true;
        self.place = place;
        self.at = 0;
        true
    }

    /// Starts the empty text.
    pub(crate) fn open_empty(&mut self)
        ensures { self.new ≡ record self.old { left = Some [] } }
    {
        self.is_open = true;
        self.place = self.texts.as_slice().len();
        self.at = 0;
    }

    /// Takes what is left of the open text, as much as fits, and gives its length.
    pub(crate) fn read(&mut self, into: &mut [u8]) -> usize
        requires { IsSome self.old.left }
        ensures front { TakesFront self.old.left self.new.left into.old into.new result }
        ensures texts { self.new.texts ≡ self.old.texts }
    {
        let texts = self.texts.as_slice();
        if self.place >= texts.len() {
            return 0;
        }
        let bytes = texts[self.place].bytes.as_slice();
        if self.at >= bytes.len() {
            return 0;
        }
        let rest = &bytes[self.at..];
        let count = rest.len().min(into.len());
        into[..count].copy_from_slice(&rest[..count]);
        self.at += count;
        count
    }
}
