//! A disk on two devices.

ghost use Rattle.std.specs.Prelude.{◌≡◌, ◌≢◌, ◌<◌, ◌||◌, [], length, replicate, true, false, IfOk, IsFalse, IsSome, IsTrue};
ghost use Rattle.ac_mirror_disk.specs.Mirrors.{AreAlike};
ghost use Rattle.ac_mirror_disk.specs.Rebuilding.{AreShort, MayRebuild, Rebuilds, alike_after, ready_after};

use crate::counts::Counts;
use crate::names::Paths;
use crate::rebuilding::{Rebuilt, may_copy_all, rebuild_sides, stays_alike, stays_ready};
use crate::room::Room;
use crate::side::Side;
use ac_base::NoMemory;
use ac_outside::Disk;
use std::alloc::Global;
use std::marker::Model;

/// One disk on two devices, its sides. Each bind and write goes to both, and a read to the first. A side
/// is dropped when a call of it fails, and is not called again before it is rebuilt; but the last in use
/// stays. So a call fails only where each side in use has failed in it.
///
/// Where the two told the same files as the mirror was made, and the caller said so, it tells these, and
/// then what its calls make of them, until a `bind` or a rebuilding was refused memory.
#[derive(Drop)]
pub struct MirrorDisk<A: Disk, B: Disk> {
    pub(crate) a: Side<A>,
    pub(crate) b: Side<B>,
    pub(crate) paths: Paths,
    pub(crate) room: Room,
    pub(crate) counts: Counts,
    pub(crate) is_ready: bool,
    // What the caller knows, for clauses alone: both sides tell the same.
    pub(crate) is_alike: bool,
    // No bind of a side has failed since both held the same.
    pub(crate) is_even: bool,
}

impl<A: Disk, B: Disk> Model for MirrorDisk<A, B> {
    ghost use Rattle.ac_mirror_disk.specs.Mirrors.{Mirrored};

    ghost Value = { Mirrored A B };

    ghost use Rattle.ac_mirror_disk.specs.Fields.{mirrored};
    ghost use Rattle.ac_mirror_disk.specs.Sound.{IsSound};

    ghost view = { mirrored };

    ghost invariant = { λ s. IsSound A.told B.told (mirrored s) };
}

impl<A: Disk + Drop, B: Disk + Drop> MirrorDisk<A, B> {
    /// A mirror of these devices, both of them in use. `is_alike` is what the caller knows of them, and
    /// serves clauses alone: with `true` the mirror tells what it holds.
    ///
    /// Conditions: no file is bound on either, and each may be called; with `true`, both tell what they
    /// hold, and that is the same under each path.
    pub fn new(alloc: Global, a: A, b: B, is_alike: bool) -> Result<MirrorDisk<A, B>, NoMemory>
        requires ready { IsTrue (A.told a).is_ready × IsTrue (B.told b).is_ready }
        requires none { ((A.told a).bound ≡ 0) × ((B.told b).bound ≡ 0) }
        requires alike { IsTrue is_alike → AreAlike (A.told a).held (B.told b).held }
        ensures { IfOk result (λ mirror. mirror ≡
            record {
              a = record { disk = a; lens = replicate 16 0; in_use = true };
              b = record { disk = b; lens = replicate 16 0; in_use = true };
              paths = [];
              binds = [];
              is_ready = true;
              is_alike = is_alike;
              is_even = true;
              calls = 0;
              faults = 0;
              earlier = 0;
            }) }
    {
        let room = Room::new(alloc)?;
        Ok(MirrorDisk {
            a: Side::new(a),
            b: Side::new(b),
            paths: Paths::new(alloc),
            room,
            counts: Counts::new(),
            is_ready: true,
            is_alike,
            is_even: true,
        })
    }
}

impl<A: Disk, B: Disk> MirrorDisk<A, B> {
    /// Which sides are in use. One is at least, while memory was not refused; and the first has failed
    /// where it is not in use, or where the mirror has failed. So has the second, where both told the same
    /// as the mirror was made, and no file that the first has bound has more than 1,048,576 bytes: such a
    /// file is not compared, and the second is dropped.
    pub fn in_use(&self) -> (bool, bool)
        ensures first { result.0 ≡ self.now.a.in_use }
        ensures second { result.1 ≡ self.now.b.in_use }
        ensures some { IsTrue self.now.is_ready → IsTrue (self.now.a.in_use || self.now.b.in_use) }
        ensures dropped { IsTrue self.now.is_ready → self.now.a.in_use ≡ false → 0 < (A.told self.now.a.disk).faults }
        ensures blamed { IsTrue self.now.is_ready → 0 < self.now.faults → 0 < (A.told self.now.a.disk).faults }
        ensures dropped_second { IsTrue self.now.is_ready → IsTrue self.now.is_alike →
            AreShort self.now.a.lens (A.told self.now.a.disk).bound → self.now.b.in_use ≡ false → 0 < (B.told self.now.b.disk).faults }
        ensures blamed_second { IsTrue self.now.is_ready → IsTrue self.now.is_alike →
            AreShort self.now.a.lens (A.told self.now.a.disk).bound → 0 < self.now.faults → 0 < (B.told self.now.b.disk).faults }
    {
        (self.a.in_use, self.b.in_use)
    }

    /// The first device.
    pub fn first(&self) -> &A
        ensures { result.now ≡ self.now.a.disk }
    {
        &self.a.disk
    }

    /// The second device.
    pub fn second(&self) -> &B
        ensures { result.now ≡ self.now.b.disk }
    {
        &self.b.disk
    }

    /// Whether `rebuild` may be called: memory was not refused, and where one side is not in use, no bound
    /// file of the other has more than 1,048,576 bytes.
    pub fn may_rebuild(&self) -> bool
        ensures yes { IsTrue result → MayRebuild self.now }
        ensures no { IsFalse result → MayRebuild self.now → ⊥ }
    {
        let count = self.paths.len();
        let first = may_copy_all(&self.a.lens, count, self.b.in_use);
        let second = may_copy_all(&self.b.lens, count, self.a.in_use);
        self.is_ready && first && second
    }

    /// Makes the side that is not in use what the other is: binds on it each file that it has not bound,
    /// and copies the bound files, unless one of them is longer there. Then both are in use. With both in
    /// use it does nothing.
    ///
    /// `Longer` names the first file that is longer on the side that is not in use, and nothing is copied;
    /// `Fault` comes only where a side failed in this call. After either that side stays out of use. After
    /// `NoMemory`, of a bind, the mirror is called no more.
    ///
    /// Condition: `may_rebuild`. Memory was not refused, and where one side is not in use, no bound file of
    /// the other has more than 1,048,576 bytes.
    pub fn rebuild(&mut self) -> Rebuilt
        requires may { MayRebuild self.old }
        ensures nothing { IsTrue self.old.a.in_use → IsTrue self.old.b.in_use →
            (result ≡ Rebuilt.Both) × (self.new.a ≡ self.old.a) × (self.new.b ≡ self.old.b) }
        ensures second { IsTrue self.old.a.in_use → self.old.b.in_use ≡ false →
            Rebuilds A.told B.told self.old.a self.new.a self.old.b self.new.b (length self.old.paths) result }
        ensures first { self.old.a.in_use ≡ false →
            Rebuilds B.told A.told self.old.b self.new.b self.old.a self.new.a (length self.old.paths) result }
        ensures tells { result ≢ Rebuilt.NoMemory →
            (IsSome (A.told self.old.a.disk).held → IsSome (A.told self.new.a.disk).held)
            × (IsSome (B.told self.old.b.disk).held → IsSome (B.told self.new.b.disk).held) }
        ensures ready { self.new.is_ready ≡ ready_after result }
        ensures alike { self.new.is_alike ≡ alike_after result self.old.is_alike self.new.is_even }
        ensures paths { self.new.paths ≡ self.old.paths }
        ensures counts { (self.new.calls ≡ self.old.calls) × (self.new.faults ≡ self.old.faults) × (self.new.earlier ≡ self.old.earlier) }
    {
        let rebuilt = rebuild_sides(
            &mut self.a,
            &mut self.b,
            self.paths.bound(),
            &mut self.room,
            &mut self.is_even,
        );
        self.is_alike = stays_alike(rebuilt, self.is_alike, self.is_even);
        self.is_ready = stays_ready(rebuilt);
        rebuilt
    }
}
