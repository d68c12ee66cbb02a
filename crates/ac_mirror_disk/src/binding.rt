//! Binding a file of a mirror.

ghost use Rattle.std.specs.Prelude.{◌≡◌, ◌<◌, ◌||◌, ◌∷◌, ◌++◌, [], length, map, string_bytes, IsTrue};
ghost use Rattle.ac_outside.specs.Disks.{stays_ready};
ghost use Rattle.ac_mirror_disk.specs.inner.BindsNew.{BindsNew, IsNew, Keeps, bind_failed};
ghost use Rattle.ac_mirror_disk.specs.Sound.{IsKept};

use crate::names::Paths;
use crate::pairs::bind_both;
use crate::room::Room;
use crate::side::Side;
use ac_outside::{BindFault, Disk};

/// Whether a mirror may be called after a bind.
pub(crate) fn may_go_on(bound: Result<u32, BindFault>) -> bool
    ensures { result ≡ stays_ready bound }
{
    match bound {
        Err(BindFault::NoMemory) => false,
        _ => true,
    }
}

/// Whether a bind failed.
pub(crate) fn has_failed(bound: Result<u32, BindFault>) -> bool
    ensures { result ≡ bind_failed bound }
{
    match bound {
        Err(BindFault::Failed) => true,
        _ => false,
    }
}

// Notes a path that is to be bound, and says whether no bound file has it.
fn may_bind(paths: &mut Paths, path: &str) -> bool
    ensures asked { IsTrue result → map string_bytes paths.new.asked.items ≡ map string_bytes paths.old.asked.items ++ path.now ∷ [] }
    ensures new { IsTrue result → IsNew (map string_bytes paths.old.bound.items) path.now }
    ensures bound { paths.new.bound ≡ paths.old.bound }
{
    if paths.ask(path).is_err() {
        return false;
    }
    !paths.has(path)
}

// Keeps the path of a file that was bound.
fn keep(paths: &mut Paths, path: &str, bound: Result<u32, BindFault>) -> Result<u32, BindFault>
    ensures kept { Keeps (map string_bytes paths.old.bound.items) (map string_bytes paths.new.bound.items) path.now bound result }
    ensures asked { paths.new.asked ≡ paths.old.asked }
{
    match bound {
        Ok(len) => {
            if paths.keep(path).is_err() {
                return Err(BindFault::NoMemory);
            }
            Ok(len)
        }
        Err(fault) => Err(fault),
    }
}

/// Binds a file on each side in use. A path that is bound already is refused, as if there were no memory:
/// nobody who knows what is bound asks for it.
pub(crate) fn bind_new<A: Disk, B: Disk>(
    a: &mut Side<A>,
    b: &mut Side<B>,
    paths: &mut Paths,
    room: &mut Room,
    path: &str,
    even: &mut bool,
) -> Result<u32, BindFault>
    requires some { IsTrue (a.old.in_use || b.old.in_use) }
    requires few { length paths.old.bound.items < 16 }
    requires first { IsKept A.told a.old (map string_bytes paths.old.bound.items) }
    requires second { IsKept B.told b.old (map string_bytes paths.old.bound.items) }
    ensures { BindsNew A.told B.told a.old b.old a.new b.new (map string_bytes paths.old.bound.items) (map string_bytes
        paths.new.bound.items)
        (map string_bytes paths.old.asked.items) (map string_bytes paths.new.asked.items) path.now even.old even.new result }
{
    if may_bind(paths, path) {
        let bound = bind_both(
            a,
            b,
            path,
            even,
            room.first.as_mut_slice(),
            room.second.as_mut_slice(),
        );
        keep(paths, path, bound)
    } else {
        Err(BindFault::NoMemory)
    }
}
