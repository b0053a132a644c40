//! Both halves of a disk, read.
ghost use Rattle.std.specs.Prelude.{◌≡◌, ◌≤◌, IsTrue, IfOk, IsErrOf};
ghost use Rattle.heat_value.specs.Counts.{Rose};
ghost use Rattle.heat_disk.specs.Calls.{ReadsAlike};
ghost use Rattle.heat_disk.specs.Halves.{part};
ghost use Rattle.row_journal.specs.Images.{ImageData, IsImage};
ghost use Rattle.row_journal.specs.Found.{IsFound};

use crate::fault::ReadFault;
use crate::looking::{Found, look};
use heat_disk::{Disk, Half};
use std::alloc::Global;

/// What the disk reads as.
pub(crate) fn find<D: Disk>(alloc: Global, disk: &mut D) -> Result<Found, ReadFault>
    ensures found { IsTrue (D.shown disk.old).tells →
        IfOk result (IsFound (D.shown disk.old).seen) }
    ensures foreign { IsTrue (D.shown disk.old).tells → IsErrOf result ReadFault.Foreign →
        (image : ImageData) → ¬ IsImage (D.shown disk.old).seen image }
    ensures alike { IsTrue (D.shown disk.old).tells →
        ReadsAlike (D.shown disk.old) (D.shown disk.new) }
    ensures tells { (D.shown disk.new).tells ≡ (D.shown disk.old).tells }
    ensures later { D.faults disk.old ≤ D.faults disk.new }
    ensures disk { IsErrOf result ReadFault.Disk → Rose (D.faults disk.old) (D.faults disk.new) }
{
    let first = read_half(alloc, disk, Half::First)?;
    let second = read_half(alloc, disk, Half::Second)?;
    match look(alloc, &first, &second)? {
        Some(found) => Ok(found),
        None => Err(ReadFault::Foreign),
    }
}

// All bytes of one half.
fn read_half<D: Disk>(alloc: Global, disk: &mut D, half: Half) -> Result<Vec<u8>, ReadFault>
    ensures bytes { IsTrue (D.shown disk.old).tells →
        IfOk result (λ v. v.items ≡ part half (D.shown disk.old).seen) }
    ensures alike { IsTrue (D.shown disk.old).tells →
        ReadsAlike (D.shown disk.old) (D.shown disk.new) }
    ensures tells { (D.shown disk.new).tells ≡ (D.shown disk.old).tells }
    ensures later { D.faults disk.old ≤ D.faults disk.new }
    ensures disk { IsErrOf result ReadFault.Disk → Rose (D.faults disk.old) (D.faults disk.new) }
    ensures no_other { ¬ IsErrOf result ReadFault.Foreign }
{
    let len = disk.len(half)?;
    let mut bytes = vec![in alloc; 0; len as usize]?;
    let count = disk.read_at(half, 0, &mut bytes)?;
    bytes.truncate(count);
    Ok(bytes)
}
