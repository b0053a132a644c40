//! A journal taken up from its disk: the image is read, both halves are synced, and the live one is
//! made to end at a closed gate.
ghost use Rattle.std.specs.Prelude.{◌≡◌, ◌+◌, ◌≤◌, IsTrue, IfOk, OnOk, IsErrOf};
ghost use Rattle.heat_value.specs.Counts.{Rose};
ghost use Rattle.heat_disk.specs.Calls.{ReadsAlike};
ghost use Rattle.heat_disk.specs.Halves.{part};
ghost use Rattle.heat_disk.specs.Shown.{HasRoom, IsAtLeast, SameContent};
ghost use Rattle.row_journal.specs.Images.{ImageData, IsImage};
ghost use Rattle.row_journal.specs.Mends.{other};
ghost use Rattle.row_journal.specs.Openings.{HasOpened, Survives, StaysUnsynced};
ghost use Rattle.row_journal.specs.Pending.{IsPending};

use crate::fault::ReadFault;
use crate::looking::Found;
use crate::mending::{mend, other, settle};
use crate::place::Place;
use crate::reading::find;
use heat_disk::Disk;
use std::alloc::{AllocError, Global};

/// The image with its place, where there is one; the journal may go on from there.
pub(crate) fn take_up<D: Disk>(alloc: Global, disk: &mut D) -> Result<Found, ReadFault>
    ensures taken { IsTrue (D.shown disk.old).tells →
        IfOk result (λ found. HasOpened (D.shown disk.old) (D.shown disk.new)
        found.place found.payloads.items) }
    ensures pending { IsTrue (D.shown disk.old).tells → (image : ImageData) →
        IsImage (D.shown disk.old).seen image →
        IfOk result (λ found. IsPending (D.shown disk.old).seen image found.pending) }
    ensures foreign { IsTrue (D.shown disk.old).tells → IsErrOf result ReadFault.Foreign →
        (image : ImageData) → ¬ IsImage (D.shown disk.old).seen image }

    ensures any_moment { IsTrue (D.shown disk.old).tells →
        Survives (D.shown disk.old) (D.shown disk.new) }
    ensures unsynced { IsTrue (D.shown disk.old).tells →
        StaysUnsynced (D.shown disk.old) (D.shown disk.new) }
    ensures untouched { IsTrue (D.shown disk.old).tells → IsErrOf result ReadFault.Foreign →
        ReadsAlike (D.shown disk.old) (D.shown disk.new) }
    ensures kept { IsTrue (D.shown disk.old).tells → IsErrOf result ReadFault.Memory →
        ReadsAlike (D.shown disk.old) (D.shown disk.new) }

    ensures time { IsTrue (D.shown disk.old).tells →
        (D.shown disk.old).moment ≤ (D.shown disk.new).moment }
    ensures tells { (D.shown disk.new).tells ≡ (D.shown disk.old).tells }
    ensures later { D.faults disk.old ≤ D.faults disk.new }
    ensures disk { IsErrOf result ReadFault.Disk → Rose (D.faults disk.old) (D.faults disk.new) }
{
    let found = match find(alloc, disk) {
        Ok(found) => found,
        Err(fault) => return Err(fault),
    };
    take_room(disk, found.place)?;
    settle(disk, found.place.half)?;
    mend(disk, found.place, found.ending)?;
    Ok(found)
}

// The room of the two syncs, and of what may then be written.
fn take_room<D: Disk>(disk: &mut D, place: Place) -> Result<(), AllocError>
    ensures long { OnOk result (IsAtLeast (place.end + 1) 9 4
        (part place.half (D.shown disk.new).room)) }
    ensures short { OnOk result (IsAtLeast 9 9 4 (part place.half (D.shown disk.new).room)) }
    ensures other { OnOk result (HasRoom
        (part (other place.half) (D.shown disk.new).room) 0 0) }
    ensures content { IsTrue (D.shown disk.old).tells →
        SameContent (D.shown disk.old) (D.shown disk.new) }
    ensures tells { (D.shown disk.new).tells ≡ (D.shown disk.old).tells }
    ensures faults { D.faults disk.new ≡ D.faults disk.old }
{
    let Some(end) = place.end.checked_add(9) else {
        return Err(AllocError);
    };
    disk.room(place.half, end, 9, 4)?;
    disk.room(other(place.half), 0, 0, 1)
}
