//! The paths of a mirror.

ghost use Rattle.std.specs.Prelude.{◌≡◌, [], ◌∷◌, ◌++◌, map, length, string_bytes, OnOk, OnErr};
ghost use Rattle.std.specs.List.{list_any};
ghost use Rattle.std.specs.Str.{bytes_eq};

use ac_base::NoMemory;
use std::alloc::Global;

/// The paths of the bound files in order, and those that were to be bound.
#[derive(Drop)]
pub(crate) struct Paths {
    alloc: Global,
    bound: Vec<String>,
    asked: Vec<String>,
}

// Puts a path behind the others.
fn put(alloc: Global, paths: &mut Vec<String>, path: &str) -> Result<(), NoMemory>
    ensures ok { OnOk result (map string_bytes paths.new.items ≡ map string_bytes paths.old.items ++ path.now ∷ []) }
    ensures err { OnErr result (paths.new.items ≡ paths.old.items) }
{
    let path = String::from_str(alloc, path)?;
    paths.push(path)?;
    Ok(())
}

impl Paths {
    pub(crate) fn new(alloc: Global) -> Paths
        ensures bound { result.bound.items ≡ [] }
        ensures asked { result.asked.items ≡ [] }
    {
        Paths {
            alloc,
            bound: Vec::new(alloc),
            asked: Vec::new(alloc),
        }
    }

    /// The number of bound files.
    pub(crate) fn len(&self) -> usize
        ensures { result ≡ length self.now.bound.items }
    {
        self.bound.len()
    }

    /// Whether a file of this path is bound.
    pub(crate) fn has(&self, path: &str) -> bool
        ensures { result ≡ list_any (λ kept. bytes_eq (string_bytes kept) path.now) self.now.bound.items }
    {
        self.bound.iter().any(|kept| kept.as_str() == path)
    }

    /// Notes a path that is to be bound.
    pub(crate) fn ask(&mut self, path: &str) -> Result<(), NoMemory>
        ensures ok { OnOk result (map string_bytes self.new.asked.items ≡ map string_bytes self.old.asked.items ++ path.now ∷ []) }
        ensures bound { self.new.bound ≡ self.old.bound }
    {
        put(self.alloc, &mut self.asked, path)
    }

    /// Notes the path of a file that was bound.
    pub(crate) fn keep(&mut self, path: &str) -> Result<(), NoMemory>
        ensures ok { OnOk result (map string_bytes self.new.bound.items ≡ map string_bytes self.old.bound.items ++ path.now ∷ []) }
        ensures err { OnErr result (self.new.bound.items ≡ self.old.bound.items) }
        ensures asked { self.new.asked ≡ self.old.asked }
    {
        put(self.alloc, &mut self.bound, path)
    }

    /// The paths of the bound files, in order.
    pub(crate) fn bound(&self) -> &[String]
        ensures { result.now ≡ self.now.bound.items }
    {
        self.bound.as_slice()
    }
}
