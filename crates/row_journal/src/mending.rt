//! How a recovery goes on once the image is known: both halves are synced, and then the live one gets
//! the closed gate that it lacks.
ghost use Rattle.std.specs.Prelude.{◌≡◌, ◌+◌, ◌<◌, ◌≤◌, ◌^◌, length, IsTrue, OnOk};
ghost use Rattle.heat_disk.specs.Causes.{HasCause};
ghost use Rattle.heat_disk.specs.Calls.{ReadsAlike};
ghost use Rattle.heat_disk.specs.Halves.{part};
ghost use Rattle.heat_disk.specs.Shown.{HasRoom, IsLeft, IsAtLeast, IsDurable, LeavesOnly};
ghost use Rattle.row_journal.specs.Images.{ImageData};
ghost use Rattle.row_journal.specs.Ends.{IsTidy};
ghost use Rattle.row_journal.specs.Mends.{other, IsSettled, SettlesAt, HasMended, Mended};
ghost use Rattle.row_journal.specs.Places.{place_of};
ghost use Rattle.row_journal.specs.Ready.{IsReady};
ghost use Rattle.row_journal.specs.Unsynced.{IsLastUnsynced};

use crate::looking::Ending;
use crate::place::Place;
use heat_disk::{Disk, DiskFailed, Half};

/// The half that isn't this one.
pub(crate) fn other(half: Half) -> Half
    ensures { result ≡ other half }
{
    match half {
        Half::First => Half::Second,
        Half::Second => Half::First,
    }
}

/// Syncs the half that isn't live, and then the live one. So what was read can't be lost or turn into
/// anything else.
pub(crate) fn settle<D: Disk>(disk: &mut D, live: Half) -> Result<(), DiskFailed>
    requires other { HasRoom (part (other live) (D.shown disk.old).room) 0 0 }
    requires live { HasRoom (part live (D.shown disk.old).room) 0 0 }

    ensures alike { IsTrue (D.shown disk.old).tells →
        ReadsAlike (D.shown disk.old) (D.shown disk.new) }
    ensures durable { IsTrue (D.shown disk.old).tells → OnOk result (IsDurable (D.shown disk.new)) }
    ensures room { IsLeft 1 0 (part live (D.shown disk.old).room)
        (part live (D.shown disk.new).room) }
    ensures tells { (D.shown disk.new).tells ≡ (D.shown disk.old).tells }
    ensures cause { HasCause (D.faults disk.old) (D.faults disk.new) result }
{
    disk.sync(other(live))?;
    disk.sync(live)
}

/// Makes the live half end at a closed gate.
pub(crate) fn mend<D: Disk>(disk: &mut D, place: Place, ending: Ending) -> Result<(), DiskFailed>
    requires room { IsAtLeast (place.end + 1) 9 3 (part place.half (D.shown disk.old).room) }
    requires short { IsAtLeast 9 9 3 (part place.half (D.shown disk.old).room) }
    requires settled { IsTrue (D.shown disk.old).tells →
        SettlesAt place ending (D.shown disk.old) }

    ensures any_moment { IsTrue (D.shown disk.old).tells → (image : ImageData) →
        place ≡ place_of image → IsSettled image ending (D.shown disk.old) →
        IsTidy (D.shown disk.old).seen image →
        LeavesOnly (D.shown disk.old) (D.shown disk.new) (Mended image (D.shown disk.old).seen) }
    ensures unsynced { IsTrue (D.shown disk.old).tells → (image : ImageData) →
        place ≡ place_of image → IsSettled image ending (D.shown disk.old) →
        IsTidy (D.shown disk.old).seen image → IsLastUnsynced (D.shown disk.new) }
    ensures ready { IsTrue (D.shown disk.old).tells → (image : ImageData) →
        place ≡ place_of image → IsSettled image ending (D.shown disk.old) →
        OnOk result (IsReady image (D.shown disk.new)) }
    ensures bytes { IsTrue (D.shown disk.old).tells → (image : ImageData) →
        place ≡ place_of image → IsSettled image ending (D.shown disk.old) →
        OnOk result (HasMended image (D.shown disk.old).seen (D.shown disk.new).seen) }
    ensures time { IsTrue (D.shown disk.old).tells →
        (D.shown disk.old).moment ≤ (D.shown disk.new).moment }
    ensures tells { (D.shown disk.new).tells ≡ (D.shown disk.old).tells }
    ensures cause { HasCause (D.faults disk.old) (D.faults disk.new) result }
{
    match ending {
        Ending::Short => restart(disk, place),
        Ending::Closed => Ok(()),
        Ending::Open => close(disk, place),
    }
}

// Begins an empty journal in version 2.
fn restart<D: Disk>(disk: &mut D, place: Place) -> Result<(), DiskFailed>
    requires room { IsAtLeast 9 9 3 (part place.half (D.shown disk.old).room) }

    ensures any_moment { IsTrue (D.shown disk.old).tells → (image : ImageData) →
        place ≡ place_of image → IsSettled image Ending.Short (D.shown disk.old) →
        LeavesOnly (D.shown disk.old) (D.shown disk.new) (Mended image (D.shown disk.old).seen) }
    ensures unsynced { IsTrue (D.shown disk.old).tells → (image : ImageData) →
        place ≡ place_of image → IsSettled image Ending.Short (D.shown disk.old) →
        IsLastUnsynced (D.shown disk.new) }
    ensures ready { IsTrue (D.shown disk.old).tells → (image : ImageData) →
        place ≡ place_of image → IsSettled image Ending.Short (D.shown disk.old) →
        OnOk result (IsReady image (D.shown disk.new)) }
    ensures bytes { IsTrue (D.shown disk.old).tells → (image : ImageData) →
        place ≡ place_of image → IsSettled image Ending.Short (D.shown disk.old) →
        OnOk result (HasMended image (D.shown disk.old).seen (D.shown disk.new).seen) }
    ensures time { IsTrue (D.shown disk.old).tells →
        (D.shown disk.old).moment ≤ (D.shown disk.new).moment }
    ensures tells { (D.shown disk.new).tells ≡ (D.shown disk.old).tells }
    ensures cause { HasCause (D.faults disk.old) (D.faults disk.new) result }
{
    disk.cut(place.half, 0)?;
    disk.write_at(place.half, 0, b"HEATJ002\0")?;
    disk.sync(place.half)
}

// Writes a closed gate behind the last record.
fn close<D: Disk>(disk: &mut D, place: Place) -> Result<(), DiskFailed>
    requires room { IsAtLeast (place.end + 1) 1 2 (part place.half (D.shown disk.old).room) }
    requires settled { IsTrue (D.shown disk.old).tells →
        SettlesAt place Ending.Open (D.shown disk.old) }

    ensures any_moment { IsTrue (D.shown disk.old).tells → (image : ImageData) →
        place ≡ place_of image → IsSettled image Ending.Open (D.shown disk.old) →
        IsTidy (D.shown disk.old).seen image →
        LeavesOnly (D.shown disk.old) (D.shown disk.new) (Mended image (D.shown disk.old).seen) }
    ensures unsynced { IsTrue (D.shown disk.old).tells → (image : ImageData) →
        place ≡ place_of image → IsSettled image Ending.Open (D.shown disk.old) →
        IsTidy (D.shown disk.old).seen image → IsLastUnsynced (D.shown disk.new) }
    ensures ready { IsTrue (D.shown disk.old).tells → (image : ImageData) →
        place ≡ place_of image → IsSettled image Ending.Open (D.shown disk.old) →
        OnOk result (IsReady image (D.shown disk.new)) }
    ensures bytes { IsTrue (D.shown disk.old).tells → (image : ImageData) →
        place ≡ place_of image → IsSettled image Ending.Open (D.shown disk.old) →
        OnOk result (HasMended image (D.shown disk.old).seen (D.shown disk.new).seen) }
    ensures time { IsTrue (D.shown disk.old).tells →
        (D.shown disk.old).moment ≤ (D.shown disk.new).moment }
    ensures tells { (D.shown disk.new).tells ≡ (D.shown disk.old).tells }
    ensures cause { HasCause (D.faults disk.old) (D.faults disk.new) result }
{
    disk.write_at(place.half, place.end, &[0])?;
    disk.sync(place.half)
}
