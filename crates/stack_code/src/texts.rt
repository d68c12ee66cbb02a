//! The texts of a code.

ghost use Rattle.std.specs.Prelude.{◌≡◌, map, slice_get, IfOk, option_map};
ghost use Rattle.stack_code.specs.Shapes.{directives_in};

use ac_base::{Bytes, List, NoMemory};
use std::alloc::Global;
use std::marker::Model;

/// The texts of `Print` instructions, with the number of directives of each.
///
/// Contracts see the texts.
#[derive(Debug, Drop)]
pub struct Texts {
    texts: List<Bytes>,
    directives: List<u64>,
}

impl Model for Texts {
    ghost use Rattle.std.specs.Prelude.{◌≡◌, List, ℕ, map};
    ghost use Rattle.stack_code.specs.Shapes.{directives_in};

    ghost Value = { List (List ℕ) };

    ghost view = { λ it. it.texts };

    ghost invariant = { λ it. it.directives ≡ map directives_in it.texts };
}

fn directives_of(text: &[u8]) -> u64
    ensures { result ≡ directives_in text.now }
{
    let mut count = 0;
    let mut directly = false;
    for b in text {
        if directly {
            if *b == b'c' || *b == b'd' {
                count += 1;
            }
            directly = false;
        } else {
            directly = *b == b'%';
        }
    }
    count
}

fn all_directives(alloc: Global, texts: &[Bytes]) -> Result<List<u64>, NoMemory>
    ensures { IfOk result (λ counts. counts ≡ map directives_in texts.now) }
{
    let mut counts = List::new(alloc);
    for text in texts {
        counts.push(directives_of(text.as_slice()))?;
    }
    Ok(counts)
}

impl Texts {
    /// These texts.
    pub fn new(alloc: Global, texts: List<Bytes>) -> Result<Texts, NoMemory>
        ensures { IfOk result (λ it. it ≡ texts) }
    {
        let directives = all_directives(alloc, texts.as_slice())?;
        Ok(Texts { texts, directives })
    }

    /// The texts by number.
    pub fn as_slice(&self) -> &[Bytes]
        ensures { result.now ≡ self.now }
    {
        self.texts.as_slice()
    }

    /// The number of directives of a text.
    pub fn directives(&self, text: u32) -> Option<u64>
        ensures { result ≡ option_map directives_in (slice_get self.now text) }
    {
        self.directives.as_slice().get(text as usize).copied()
    }
}
