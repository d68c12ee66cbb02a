//! A mirror as a disk.

ghost use Rattle.std.specs.Prelude.{◌≡◌, ◌≢◌, ◌+◌, ◌<◌, ◌≤◌, length, Err, OnErr, IsTrue};
ghost use Rattle.std.specs.Io.{ReadsAtMost};
ghost use Rattle.ac_outside.specs.Told.{AddsName};
ghost use Rattle.ac_mirror_disk.specs.Calls.{HasBound, HasRead, HasWritten};
ghost use Rattle.ac_mirror_disk.specs.Mirrors.{EachRose, StayEqual, StaysSo, bound-told, mirror_contents, told_by_mirror};
ghost use Rattle.ac_mirror_disk.specs.Pairs.{BothBound, BothRead, BothWrite};

use crate::binding::{bind_new, has_failed, may_go_on};
use crate::mirror::MirrorDisk;
use crate::pairs::{read_both, write_both};
use ac_outside::{BindFault, Disk, FILE_BYTES, Failed, Torn};

impl<A: Disk, B: Disk> Disk for MirrorDisk<A, B> {
    ghost told = { told_by_mirror A.told B.told };

    ghost tells_bound = { λ m. bound-told (mirror_contents A.told B.told m) m.paths };

    fn bind(&mut self, _file: u32, path: &str) -> Result<u32, BindFault>
        requires ready { IsTrue self.old.is_ready }
        requires few { (told_by_mirror A.told B.told self.old).bound < 16 }
        ensures told { HasBound (told_by_mirror A.told B.told self.old) (told_by_mirror A.told B.told self.new) path.now result }
        ensures asked { AddsName (told_by_mirror A.told B.told self.old).binds (told_by_mirror A.told B.told self.new).binds path.now }
        ensures earlier { self.new.earlier ≡ self.old.faults }

        // What the two sides have done, unless memory was refused.
        ensures sides { result ≢ Err BindFault.NoMemory →
            BothBound A.told B.told self.old.a self.old.b self.new.a self.new.b path.now self.old.is_even self.new.is_even result }

        // It fails only where each side in use has failed, and the bound files stay equal.
        ensures blame { result ≡ Err BindFault.Failed → EachRose A.told B.told self.old self.new }
        ensures equal { result ≢ Err BindFault.NoMemory → StayEqual A.told B.told self.old self.new }
        ensures alike { self.new.is_alike ≡ self.old.is_alike }
    {
        let bound = bind_new(
            &mut self.a,
            &mut self.b,
            &mut self.paths,
            &mut self.room,
            path,
            &mut self.is_even,
        );
        self.is_ready = may_go_on(bound);
        self.counts.count(has_failed(bound));
        bound
    }

    fn bound(&self) -> u32
        ensures { result ≡ (told_by_mirror A.told B.told self.now).bound }
    {
        self.paths.len() as u32
    }

    fn read_at(&mut self, file: u32, from: u32, into: &mut [u8]) -> Result<usize, Failed>
        requires ready { IsTrue self.old.is_ready }
        requires named { file < (told_by_mirror A.told B.told self.old).bound }
        requires within { from + length into.old ≤ FILE_BYTES }
        ensures told { HasRead (told_by_mirror A.told B.told self.old) (told_by_mirror A.told B.told self.new)
            file from (length into.old) into.new result }
        ensures most { ReadsAtMost result into.new }
        ensures earlier { self.new.earlier ≡ self.old.faults }

        // What the two sides have done: it fails only where each in use has failed, and the bound files stay
        // equal.
        ensures sides { BothRead A.told B.told self.old.a self.old.b self.new.a self.new.b file from (length into.old) into.new result }
        ensures blame { OnErr result (EachRose A.told B.told self.old self.new) }
        ensures equal { StayEqual A.told B.told self.old self.new }
        ensures same { StaysSo self.old self.new }
    {
        let read = read_both(&mut self.a, &mut self.b, file, from, into);
        self.counts.count(read.is_err());
        read
    }

    fn write_at(&mut self, file: u32, from: u32, bytes: &[u8]) -> Result<(), Torn>
        requires ready { IsTrue self.old.is_ready }
        requires named { file < (told_by_mirror A.told B.told self.old).bound }
        requires within { from + length bytes.now ≤ FILE_BYTES }
        ensures told { HasWritten (told_by_mirror A.told B.told self.old) (told_by_mirror A.told B.told self.new) file from bytes.now
            result }
        ensures earlier { self.new.earlier ≡ self.old.faults }

        // What the two sides have done: it fails only where each in use has failed, and the bound files stay
        // equal.
        ensures sides { BothWrite A.told B.told self.old.a self.old.b self.new.a self.new.b file from bytes.now result }
        ensures blame { OnErr result (EachRose A.told B.told self.old self.new) }
        ensures equal { StayEqual A.told B.told self.old self.new }
        ensures same { StaysSo self.old self.new }
    {
        let written = write_both(&mut self.a, &mut self.b, file, from, bytes);
        self.counts.count(written.is_err());
        written
    }
}
