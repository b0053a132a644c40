//! One record more behind the image. It is written behind the closed gate and synced; then its gate is
//! opened and synced. So a crash leaves the image with it or without it.
ghost use Rattle.std.specs.Prelude.{◌≡◌, ◌+◌, ◌<◌, ◌≤◌, ◌^◌, ◌++◌, [], ◌∷◌, List, ℕ, length, IsTrue, OnOk};
ghost use Rattle.heat_disk.specs.Halves.{part};
ghost use Rattle.heat_disk.specs.Shown.{IsLeft, IsAtLeast, IsDurable, LeavesOnly};
ghost use Rattle.heat_disk.specs.Causes.{HasCause};
ghost use Rattle.row_journal.specs.Forms.{body, IsSized};
ghost use Rattle.row_journal.specs.Images.{ImageData};
ghost use Rattle.row_journal.specs.Ends.{with_next, LeavesSealed, LeavesEither};
ghost use Rattle.row_journal.specs.Places.{place_of};
ghost use Rattle.row_journal.specs.Ready.{IsReady, HasRecord, StandsAt};
ghost use Rattle.row_journal.specs.Unsynced.{IsLastUnsynced};

use crate::place::Place;
use heat_disk::{Disk, DiskFailed};

/// Puts what stands behind a record's gate, and a closed gate, behind the image, and opens the gate.
pub(crate) fn add_record<D: Disk>(
    disk: &mut D,
    place: Place,
    record_bytes: &[u8],
) -> Result<(), DiskFailed>
    requires end { place.end + length record_bytes.now + 1 < 2 ^ 64 }
    requires room { IsAtLeast (place.end + length record_bytes.now + 1)
        (length record_bytes.now + 1) 4 (part place.half (D.shown disk.old).room) }
    requires ready { IsTrue (D.shown disk.old).tells → StandsAt place (D.shown disk.old) }

    ensures any_moment { IsTrue (D.shown disk.old).tells → (image : ImageData) (payload : List ℕ) →
        place ≡ place_of image → IsReady image (D.shown disk.old) → IsSized payload →
        record_bytes.now ≡ body image.version (length image.payloads + 1) payload ++ 0 ∷ [] →
        LeavesOnly (D.shown disk.old) (D.shown disk.new) (LeavesEither image payload) }
    ensures unsynced { IsTrue (D.shown disk.old).tells → (image : ImageData) (payload : List ℕ) →
        place ≡ place_of image → IsReady image (D.shown disk.old) → IsSized payload →
        record_bytes.now ≡ body image.version (length image.payloads + 1) payload ++ 0 ∷ [] →
        IsLastUnsynced (D.shown disk.new) }
    ensures ready { IsTrue (D.shown disk.old).tells → (image : ImageData) (payload : List ℕ) →
        place ≡ place_of image → IsReady image (D.shown disk.old) → IsSized payload →
        record_bytes.now ≡ body image.version (length image.payloads + 1) payload ++ 0 ∷ [] →
        OnOk result (IsReady (with_next image payload) (D.shown disk.new)) }
    ensures tells { (D.shown disk.new).tells ≡ (D.shown disk.old).tells }
    ensures cause { HasCause (D.faults disk.old) (D.faults disk.new) result }
{
    stage(disk, place, record_bytes)?;
    open_gate(disk, place)
}

// Puts the record behind the closed gate, and syncs it. No crash up to then leaves the record.
fn stage<D: Disk>(disk: &mut D, place: Place, record_bytes: &[u8]) -> Result<(), DiskFailed>
    requires end { place.end + length record_bytes.now + 1 < 2 ^ 64 }
    requires room { IsAtLeast (place.end + length record_bytes.now + 1)
        (length record_bytes.now) 2 (part place.half (D.shown disk.old).room) }
    requires ready { IsTrue (D.shown disk.old).tells → StandsAt place (D.shown disk.old) }

    ensures any_moment { IsTrue (D.shown disk.old).tells → (image : ImageData) →
        place ≡ place_of image → IsReady image (D.shown disk.old) →
        LeavesOnly (D.shown disk.old) (D.shown disk.new) (LeavesSealed image) }
    ensures unsynced { IsTrue (D.shown disk.old).tells → (image : ImageData) →
        place ≡ place_of image → IsReady image (D.shown disk.old) →
        IsLastUnsynced (D.shown disk.new) }
    ensures staged { IsTrue (D.shown disk.old).tells → (image : ImageData) (payload : List ℕ) →
        place ≡ place_of image → IsReady image (D.shown disk.old) → IsSized payload →
        record_bytes.now ≡ body image.version (length image.payloads + 1) payload ++ 0 ∷ [] →
        OnOk result (HasRecord image payload (D.shown disk.new)) }
    ensures durable { IsTrue (D.shown disk.old).tells →
        OnOk result (IsDurable (D.shown disk.new)) }
    ensures at { IsTrue (D.shown disk.old).tells →
        OnOk result (place.end ≤ length (part place.half (D.shown disk.new).seen)) }
    ensures room { IsLeft 2 (length record_bytes.now)
        (part place.half (D.shown disk.old).room) (part place.half (D.shown disk.new).room) }
    ensures tells { (D.shown disk.new).tells ≡ (D.shown disk.old).tells }
    ensures cause { HasCause (D.faults disk.old) (D.faults disk.new) result }
{
    disk.write_at(place.half, place.end + 1, record_bytes)?;
    disk.sync(place.half)
}

// Opens the gate of the record behind it, and syncs that. All else is on the disk by then: a gate that
// came to be open before its record would have other bytes behind it.
fn open_gate<D: Disk>(disk: &mut D, place: Place) -> Result<(), DiskFailed>
    requires room { IsAtLeast (place.end + 1) 1 2 (part place.half (D.shown disk.old).room) }
    requires at { IsTrue (D.shown disk.old).tells →
        place.end ≤ length (part place.half (D.shown disk.old).seen) }
    requires durable { IsTrue (D.shown disk.old).tells → IsDurable (D.shown disk.old) }

    ensures any_moment { IsTrue (D.shown disk.old).tells → (image : ImageData) (payload : List ℕ) →
        place ≡ place_of image → HasRecord image payload (D.shown disk.old) →
        LeavesOnly (D.shown disk.old) (D.shown disk.new) (LeavesEither image payload) }
    ensures unsynced { IsTrue (D.shown disk.old).tells → (image : ImageData) (payload : List ℕ) →
        place ≡ place_of image → HasRecord image payload (D.shown disk.old) →
        IsLastUnsynced (D.shown disk.new) }
    ensures ready { IsTrue (D.shown disk.old).tells → (image : ImageData) (payload : List ℕ) →
        place ≡ place_of image → HasRecord image payload (D.shown disk.old) →
        OnOk result (IsReady (with_next image payload) (D.shown disk.new)) }
    ensures tells { (D.shown disk.new).tells ≡ (D.shown disk.old).tells }
    ensures cause { HasCause (D.faults disk.old) (D.faults disk.new) result }
{
    disk.write_at(place.half, place.end, &[1])?;
    disk.sync(place.half)
}
