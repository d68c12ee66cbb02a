//! Reading a bound file whole, a piece at a time.

ghost use Rattle.std.specs.Prelude.{◌≡◌, ◌+◌, ◌<◌, ◌≤◌, ◌++◌, length, IsTrue, IfErr, IfOk, IfSome, OnOk, None, Some};
ghost use Rattle.ac_outside.specs.Causes.{HasCause};
ghost use Rattle.ac_outside.specs.Disks.{BindsNone, called};
ghost use Rattle.ac_outside.specs.Files.{file_of, part};
ghost use Rattle.starting_files.specs.Starting.{IsLatest, IsNumberBelow, StartHasCause};
ghost use Rattle.starting_files.specs.inner.Pieces.{ReadsPiece, ReadsWhole};

use crate::fault::StartFault;
use ac_base::{Bytes, List};
use ac_outside::{Disk, FILE_BYTES};
use std::alloc::Global;

/// How many bytes one call reads at most.
const PIECE: u32 = 65_536;

// Reads what stands in a file from a place on, as much as fits into the piece, and appends it.
fn read_piece<D: Disk>(
    disk: &mut D,
    file: u32,
    from: u32,
    piece: &mut [u8],
    bytes: &mut Vec<u8>,
) -> Result<(), StartFault>
    requires ready { IsTrue (D.told disk.old).is_ready }
    requires named { file < (D.told disk.old).bound }
    requires within { from + length piece.old ≤ FILE_BYTES }
    ensures none { BindsNone (D.told disk.old) (D.told disk.new) }
    ensures few { OnOk result (length bytes.new.items ≤ length bytes.old.items + length piece.old) }
    ensures told { IfSome (D.told disk.old).held (λ held.
        ReadsPiece held (D.told disk.new).held file from (length piece.old) bytes.old.items bytes.new.items result) }
    ensures silent { (D.told disk.old).held ≡ None → (D.told disk.new).held ≡ None }
    ensures below { IfErr result (IsNumberBelow 0) }
    ensures cause { StartHasCause (D.told disk.old).faults (D.told disk.new).faults result }
    ensures latest { IsLatest (D.told disk.old).faults (D.told disk.new).earlier result }
{
    let count = disk.read_at(file, from, piece)?;
    bytes.extend_from_slice(&piece[..count])?;
    Ok(())
}

/// Reads a bound file of this length from its first byte to its last, by one call for each piece.
/// Where a call gives less than was asked for, the next goes on a piece further.
pub(crate) fn read_whole<D: Disk>(
    alloc: Global,
    disk: &mut D,
    file: u32,
    len: u32,
) -> Result<Bytes, StartFault>
    requires ready { IsTrue (D.told disk.old).is_ready }
    requires named { file < (D.told disk.old).bound }
    requires within { len ≤ FILE_BYTES }
    ensures none { BindsNone (D.told disk.old) (D.told disk.new) }
    ensures few { IfOk result (λ bytes. length bytes ≤ len) }
    ensures told { IfSome (D.told disk.old).held (λ held. ReadsWhole held (D.told disk.new).held file len result) }
    ensures silent { (D.told disk.old).held ≡ None → (D.told disk.new).held ≡ None }
    ensures below { IfErr result (IsNumberBelow 0) }
    ensures cause { StartHasCause (D.told disk.old).faults (D.told disk.new).faults result }
    ensures latest { IsLatest (D.told disk.old).faults (D.told disk.new).earlier result }
{
    let mut piece = vec![in alloc; 0u8; len.min(PIECE) as usize]?;
    let mut bytes = Vec::with_capacity(alloc, len as usize)?;
    for number in 0..len.div_ceil(PIECE) {
        let from = number * PIECE;
        let want = PIECE.min(len - from) as usize;
        read_piece(disk, file, from, &mut piece[..want], &mut bytes)?;
    }
    Ok(List::from_vec(bytes))
}
