//! A snapshot in the half that isn't live, in three parts, each of which ends with a sync of that half.
//! Until the last part's write the image is as before.
ghost use Rattle.std.specs.Prelude.{◌≡◌, ◌+◌, ◌<◌, ◌≤◌, ◌-◌, ◌^◌, ◌++◌, [], ◌∷◌, List, ℕ, length, get_or};
ghost use Rattle.std.specs.Prelude.{IsTrue, IfOk, OnOk};
ghost use Rattle.heat_disk.specs.Causes.{HasCause};
ghost use Rattle.heat_disk.specs.Calls.{ReadsAlike};
ghost use Rattle.heat_disk.specs.Halves.{Pair, part};
ghost use Rattle.heat_disk.specs.Shown.{IsLeft, IsAtLeast, Spends, IsDurable, LeavesOnly};
ghost use Rattle.row_journal.specs.declared.version.Version.TheVariants.{Two};
ghost use Rattle.row_journal.specs.Forms.{body, IsSized};
ghost use Rattle.row_journal.specs.Images.{ImageData};
ghost use Rattle.row_journal.specs.Mends.{other};
ghost use Rattle.row_journal.specs.Places.{place_of};
ghost use Rattle.row_journal.specs.Ready.{IsReady, StandsAt};
ghost use Rattle.row_journal.specs.Snapshots.{IsUnopened, IsShut, header_of, IsStaged, IsStagedSomehow};
ghost use Rattle.row_journal.specs.Snapshots.{HasShut, HasStaged, HasFilled, fresh_snapshot, LeavesSnapshot};
ghost use Rattle.row_journal.specs.Unsynced.{IsLastUnsynced};

use crate::mending::other;
use crate::place::Place;
use heat_disk::{Disk, DiskFailed, Half};

/// Puts what stands behind a snapshot's gate, and its header, into the half that isn't live, and opens
/// the gate.
pub(crate) fn write_snapshot<D: Disk>(
    disk: &mut D,
    place: Place,
    record_bytes: &[u8],
) -> Result<(), DiskFailed>
    requires young { place.epoch < 2 ^ 62 - 1 }
    requires room { IsAtLeast (length record_bytes.now + 17) (length record_bytes.now + 34) 7
        (part (other place.half) (D.shown disk.old).room) }
    requires ready { IsTrue (D.shown disk.old).tells → StandsAt place (D.shown disk.old) }

    ensures any_moment { IsTrue (D.shown disk.old).tells → (image : ImageData) (payload : List ℕ) →
        place ≡ place_of image → IsReady image (D.shown disk.old) → IsSized payload →
        record_bytes.now ≡ body Two 1 payload ++ 0 ∷ [] →
        LeavesOnly (D.shown disk.old) (D.shown disk.new) (LeavesSnapshot image payload) }
    ensures unsynced { IsTrue (D.shown disk.old).tells → (image : ImageData) (payload : List ℕ) →
        place ≡ place_of image → IsReady image (D.shown disk.old) → IsSized payload →
        record_bytes.now ≡ body Two 1 payload ++ 0 ∷ [] → IsLastUnsynced (D.shown disk.new) }
    ensures ready { IsTrue (D.shown disk.old).tells → (image : ImageData) (payload : List ℕ) →
        place ≡ place_of image → IsReady image (D.shown disk.old) → IsSized payload →
        record_bytes.now ≡ body Two 1 payload ++ 0 ∷ [] →
        OnOk result (IsReady (fresh_snapshot image payload) (D.shown disk.new)) }
    ensures tells { (D.shown disk.new).tells ≡ (D.shown disk.old).tells }
    ensures cause { HasCause (D.faults disk.old) (D.faults disk.new) result }
{
    let half = other(place.half);
    shut(disk, half)?;
    fill(disk, half, place.epoch + 1, record_bytes)?;
    open(disk, half)
}

// Closing: then no gate of the half is open at place 16. Any other byte there stays, since a snapshot
// that broke off may have left a greater epoch and a whole record, and a write there could open them.
fn shut<D: Disk>(disk: &mut D, half: Half) -> Result<(), DiskFailed>
    requires room { IsAtLeast 17 17 2 (part half (D.shown disk.old).room) }
    requires durable { IsTrue (D.shown disk.old).tells → IsDurable (D.shown disk.old) }

    ensures any_moment { IsTrue (D.shown disk.old).tells →
        LeavesOnly (D.shown disk.old) (D.shown disk.new)
        (IsUnopened half (D.shown disk.old).seen) }
    ensures shut { IsTrue (D.shown disk.old).tells →
        OnOk result (HasShut half (D.shown disk.new)) }
    ensures room { IsLeft 2 17 (part half (D.shown disk.old).room)
        (part half (D.shown disk.new).room) }
    ensures tells { (D.shown disk.new).tells ≡ (D.shown disk.old).tells }
    ensures cause { HasCause (D.faults disk.old) (D.faults disk.new) result }
{
    shut_gate(disk, half)?;
    disk.sync(half)
}

// Sees to it that the gate at place 16 isn't open, and that the half reaches it.
fn shut_gate<D: Disk>(disk: &mut D, half: Half) -> Result<(), DiskFailed>
    requires room { IsAtLeast 17 17 2 (part half (D.shown disk.old).room) }
    requires durable { IsTrue (D.shown disk.old).tells → IsDurable (D.shown disk.old) }

    ensures any_moment { IsTrue (D.shown disk.old).tells →
        LeavesOnly (D.shown disk.old) (D.shown disk.new)
        (IsUnopened half (D.shown disk.old).seen) }
    ensures shut { IsTrue (D.shown disk.old).tells →
        OnOk result (IsShut (part half (D.shown disk.new).seen)) }
    ensures room { IsLeft 1 17 (part half (D.shown disk.old).room)
        (part half (D.shown disk.new).room) }
    ensures tells { (D.shown disk.new).tells ≡ (D.shown disk.old).tells }
    ensures cause { HasCause (D.faults disk.old) (D.faults disk.new) result }
{
    if disk.len(half)? < 17 {
        return disk.write_at(half, 0, b"\0\0\0\0\0\0\0\0\0\0\0\0\0\0\0\0\0");
    }
    if gate_of(disk, half)? == 1 {
        return disk.write_at(half, 16, &[0]);
    }
    Ok(())
}

// The byte at place 16.
fn gate_of<D: Disk>(disk: &mut D, half: Half) -> Result<u8, DiskFailed>
    ensures gate { IsTrue (D.shown disk.old).tells →
        17 ≤ length (part half (D.shown disk.old).seen) →
        IfOk result (λ gate. gate ≡ get_or (part half (D.shown disk.old).seen) 16 0) }
    ensures alike { IsTrue (D.shown disk.old).tells →
        ReadsAlike (D.shown disk.old) (D.shown disk.new) }
    ensures room { Spends half 0 0 (D.shown disk.old) (D.shown disk.new) }
    ensures tells { (D.shown disk.new).tells ≡ (D.shown disk.old).tells }
    ensures cause { HasCause (D.faults disk.old) (D.faults disk.new) result }
{
    let mut gate = [0];
    disk.read_at(half, 16, &mut gate)?;
    Ok(gate[0])
}

// Filling: the header and the record, with its gate as it is.
fn fill<D: Disk>(
    disk: &mut D,
    half: Half,
    epoch: u64,
    record_bytes: &[u8],
) -> Result<(), DiskFailed>
    requires room { IsAtLeast (length record_bytes.now + 17) (length record_bytes.now + 16) 3
        (part half (D.shown disk.old).room) }
    requires shut { IsTrue (D.shown disk.old).tells → HasShut half (D.shown disk.old) }

    ensures any_moment { IsTrue (D.shown disk.old).tells →
        LeavesOnly (D.shown disk.old) (D.shown disk.new)
        (IsUnopened half (D.shown disk.old).seen) }
    ensures filled { IsTrue (D.shown disk.old).tells → OnOk result
        (HasFilled half epoch record_bytes.now (D.shown disk.old).seen (D.shown disk.new)) }
    ensures room { IsLeft 3 (length record_bytes.now + 16)
        (part half (D.shown disk.old).room) (part half (D.shown disk.new).room) }
    ensures tells { (D.shown disk.new).tells ≡ (D.shown disk.old).tells }
    ensures cause { HasCause (D.faults disk.old) (D.faults disk.new) result }
{
    disk.write_at(half, 0, &header(epoch))?;
    disk.write_at(half, 17, record_bytes)?;
    disk.sync(half)
}

// What a half begins with that a snapshot has made.
fn header(epoch: u64) -> [u8; 16]
    ensures { result ≡ header_of epoch }
{
    let [a, b, c, d, e, f, g, h] = epoch.to_be_bytes();
    [
        b'H', b'E', b'A', b'T', b'S', b'0', b'0', b'2', a, b, c, d, e, f, g, h,
    ]
}

// Opening: the gate before the record.
fn open<D: Disk>(disk: &mut D, half: Half) -> Result<(), DiskFailed>
    requires room { IsAtLeast 17 1 2 (part half (D.shown disk.old).room) }
    requires at { IsTrue (D.shown disk.old).tells →
        16 ≤ length (part half (D.shown disk.old).seen) }

    ensures any_moment { IsTrue (D.shown disk.old).tells →
        (epoch gate : ℕ) (bytes : List ℕ) (before : Pair) →
        HasStaged half epoch gate bytes before (D.shown disk.old) →
        LeavesOnly (D.shown disk.old) (D.shown disk.new)
        (IsStagedSomehow half epoch bytes before) }
    ensures opened { IsTrue (D.shown disk.old).tells →
        (epoch gate : ℕ) (bytes : List ℕ) (before : Pair) →
        HasStaged half epoch gate bytes before (D.shown disk.old) →
        OnOk result (HasStaged half epoch 1 bytes before (D.shown disk.new)) }
    ensures tells { (D.shown disk.new).tells ≡ (D.shown disk.old).tells }
    ensures cause { HasCause (D.faults disk.old) (D.faults disk.new) result }
{
    disk.write_at(half, 16, &[1])?;
    disk.sync(half)
}
