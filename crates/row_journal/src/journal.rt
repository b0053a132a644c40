//! The journal.
ghost use Rattle.std.specs.Prelude.{◌≡◌, ◌⊎◌, ◌↔◌, ◌<◌, ◌≤◌, ◌-◌, ◌^◌, false, true, length};
ghost use Rattle.std.specs.Prelude.{IsTrue, IsOk, IsErrOf, IfOk, OnOk, OnErr};
ghost use Rattle.heat_disk.specs.Shown.{SameContent, LeavesOnly};
ghost use Rattle.heat_disk.specs.Calls.{ReadsAlike};
ghost use Rattle.heat_disk.specs.Causes.{HasCause};
ghost use Rattle.heat_value.specs.Counts.{Rose};
ghost use Rattle.row_journal.specs.declared.version.Version.TheVariants.{Two};
ghost use Rattle.row_journal.specs.Images.{ImageData, IsImage};
ghost use Rattle.row_journal.specs.Mends.{other};
ghost use Rattle.row_journal.specs.Openings.{HasOpened, Survives, SurvivesNamed, StaysUnsynced, IsForeign, GoesOn};
ghost use Rattle.row_journal.specs.Shown.{JournalData};
ghost use Rattle.row_journal.specs.Snapshots.{HasSnapshotRoom, fresh_snapshot, LeavesSnapshot};
ghost use Rattle.row_journal.specs.Ends.{with_next, LeavesEither};
ghost use Rattle.row_journal.specs.NextPlaces.{next_place, snapshot_place};
ghost use Rattle.row_journal.specs.Pending.{AreContents, IsPending};
ghost use Rattle.row_journal.specs.Places.{place_of, digit, IsLong};
ghost use Rattle.row_journal.specs.Ready.{IsReady, StandsAt, HasReserved, KeepsRoom};
ghost use Rattle.row_journal.specs.Unsynced.{IsLastUnsynced};

use crate::Version;
use crate::adding::add_record;
use crate::buffer::Buffer;
use crate::contents::Contents;
use crate::fault::ReadFault;
use crate::mending::other;
use crate::opening::{Imaged, Recovered};
use crate::place::Place;
use crate::reading::find;
use crate::snapshots::write_snapshot;
use crate::taking::take_up;
use heat_disk::{Disk, DiskFailed};
use std::alloc::{AllocError, Global};
use std::marker::Model;

/// A journal on its disk. From an opening on until an append or a snapshot of it failed, it stands at the image that
/// its disk reads as.
#[derive(Drop)]
pub struct Journal<D: Disk> {
    disk: D,
    place: Place,
    buffer: Buffer,
    failed: bool,
}

impl<D: Disk> Model for Journal<D> {
    ghost use Rattle.std.specs.Prelude.{◌≡◌, false, IsTrue};
    ghost use Rattle.row_journal.specs.Ready.{StandsAt};
    ghost use Rattle.row_journal.specs.Shown.{JournalData};

    ghost Value = { JournalData D };

    ghost view = { λ j. record {
      disk = j.disk;
      place = j.place;
      room = j.buffer.room;
      failed = j.failed;
    } };

    ghost invariant = { λ j. j.failed ≡ false → IsTrue (D.shown j.disk).tells →
        StandsAt j.place (D.shown j.disk) };
}

impl<D: Disk> Journal<D> {
    /// Takes a journal up from its disk, which is then made to end at a closed gate.
    pub fn recover(alloc: Global, disk: D) -> Recovered<D>
        ensures opened { (j : JournalData D) (v : _) → result ≡ Recovered.Opened j v →
            IsTrue (D.shown disk).tells →
            HasOpened (D.shown disk) (D.shown j.disk) j.place v.items
            × Survives (D.shown disk) (D.shown j.disk)
            × SurvivesNamed (D.shown disk) (D.shown j.disk) }
        ensures foreign { (d : D) → result ≡ Recovered.Foreign d → IsTrue (D.shown disk).tells →
            IsForeign (D.shown disk) (D.shown d) }
        ensures failed { (d : D) → result ≡ Recovered.DiskFault d → IsTrue (D.shown disk).tells →
            Survives (D.shown disk) (D.shown d) × SurvivesNamed (D.shown disk) (D.shown d)
            × StaysUnsynced (D.shown disk) (D.shown d) }
        ensures cause { (d : D) → result ≡ Recovered.DiskFault d →
            Rose (D.faults disk) (D.faults d) }
        ensures memory { (d : D) → result ≡ Recovered.Memory d → IsTrue (D.shown disk).tells →
            ReadsAlike (D.shown disk) (D.shown d) }

        ensures journal { (j : JournalData D) (v : _) → result ≡ Recovered.Opened j v →
            GoesOn (D.shown disk) (D.shown j.disk) (D.faults disk) (D.faults j.disk)
            × (j.failed ≡ false) }
        ensures disk { (d : D) → (result ≡ Recovered.Foreign d)
            ⊎ ((result ≡ Recovered.DiskFault d) ⊎ (result ≡ Recovered.Memory d)) →
            GoesOn (D.shown disk) (D.shown d) (D.faults disk) (D.faults d) }
    {
        let mut disk = disk;
        match take_up(alloc, &mut disk) {
            Ok(found) => {
                let journal = Journal {
                    disk,
                    place: found.place,
                    buffer: Buffer::new(alloc),
                    failed: false,
                };
                Recovered::Opened(journal, found.payloads)
            }
            Err(ReadFault::Foreign) => Recovered::Foreign(disk),
            Err(ReadFault::Disk) => Recovered::DiskFault(disk),
            Err(ReadFault::Memory) => Recovered::Memory(disk),
        }
    }

    /// A journal over this disk that isn't open yet.
    pub fn unopened(alloc: Global, disk: D) -> Journal<D>
        ensures disk { result.disk ≡ disk }
        ensures closed { result.failed ≡ true }
    {
        Journal {
            disk,
            place: Place::first(),
            buffer: Buffer::new(alloc),
            failed: true,
        }
    }

    /// Takes it up from its disk, anew where it was open before; the disk is then made to end at a closed gate. Where
    /// this fails it isn't open.
    pub fn open(&mut self, alloc: Global) -> Result<Contents, ReadFault>
        ensures opened { IsTrue (D.shown self.old.disk).tells → IfOk result (λ c.
            HasOpened (D.shown self.old.disk) (D.shown self.new.disk) self.new.place
            c.payloads.items) }
        ensures contents { IsTrue (D.shown self.old.disk).tells →
            IfOk result (AreContents (D.shown self.old.disk).seen) }
        ensures foreign { IsTrue (D.shown self.old.disk).tells →
            IsErrOf result ReadFault.Foreign →
            IsForeign (D.shown self.old.disk) (D.shown self.new.disk) }
        ensures any_moment { IsTrue (D.shown self.old.disk).tells →
            Survives (D.shown self.old.disk) (D.shown self.new.disk) }
        ensures memory { IsTrue (D.shown self.old.disk).tells → IsErrOf result ReadFault.Memory →
            ReadsAlike (D.shown self.old.disk) (D.shown self.new.disk) }
        ensures time { IsTrue (D.shown self.old.disk).tells →
            (D.shown self.old.disk).moment ≤ (D.shown self.new.disk).moment }
        ensures going { (self.new.failed ≡ false) ↔ IsOk result }
        ensures same { GoesOn (D.shown self.old.disk) (D.shown self.new.disk)
            (D.faults self.old.disk) (D.faults self.new.disk) }
        ensures cause { IsErrOf result ReadFault.Disk →
            Rose (D.faults self.old.disk) (D.faults self.new.disk) }
    {
        self.failed = true;
        let found = take_up(alloc, &mut self.disk)?;
        self.place = found.place;
        self.failed = false;
        Ok(Contents {
            payloads: found.payloads,
            pending: found.pending,
        })
    }

    /// Closes it: until it is opened anew no append and no snapshot of it is made.
    pub fn close(&mut self)
        ensures disk { self.new.disk ≡ self.old.disk }
        ensures closed { self.new.failed ≡ true }
    {
        self.failed = true;
    }

    /// What its disk reads as now. It never writes, and the journal goes on as it did.
    #[tactic(auto, using(crate::proofs::Runs::ready_alike))]
    pub fn reread(&mut self, alloc: Global) -> Result<Contents, ReadFault>
        ensures contents { IsTrue (D.shown self.old.disk).tells →
            IfOk result (AreContents (D.shown self.old.disk).seen) }
        ensures foreign { IsTrue (D.shown self.old.disk).tells →
            IsErrOf result ReadFault.Foreign →
            (image : ImageData) → ¬ IsImage (D.shown self.old.disk).seen image }
        ensures alike { IsTrue (D.shown self.old.disk).tells →
            ReadsAlike (D.shown self.old.disk) (D.shown self.new.disk) }
        ensures ready { IsTrue (D.shown self.old.disk).tells → (image : ImageData) →
            IsReady image (D.shown self.old.disk) → IsReady image (D.shown self.new.disk) }
        ensures place { self.new.place ≡ self.old.place }
        ensures failed { self.new.failed ≡ self.old.failed }
        ensures same { GoesOn (D.shown self.old.disk) (D.shown self.new.disk)
            (D.faults self.old.disk) (D.faults self.new.disk) }
        ensures cause { IsErrOf result ReadFault.Disk →
            Rose (D.faults self.old.disk) (D.faults self.new.disk) }
    {
        let found = match find(alloc, &mut self.disk) {
            Ok(found) => found,
            Err(fault) => return Err(fault),
        };
        Ok(Contents {
            payloads: found.payloads,
            pending: found.pending,
        })
    }

    /// What a disk reads as. It never writes.
    pub fn image(alloc: Global, disk: &mut D) -> Imaged
        ensures payloads { IsTrue (D.shown disk.old).tells → (v : _) →
            result ≡ Imaged.Payloads v →
            (image : ImageData) × IsImage (D.shown disk.old).seen image
            × (v.items ≡ image.payloads) }
        ensures foreign { IsTrue (D.shown disk.old).tells → result ≡ Imaged.Foreign →
            (image : ImageData) → ¬ IsImage (D.shown disk.old).seen image }
        ensures cause { result ≡ Imaged.DiskFault → Rose (D.faults disk.old) (D.faults disk.new) }
        ensures alike { IsTrue (D.shown disk.old).tells →
            ReadsAlike (D.shown disk.old) (D.shown disk.new) }
        ensures same { GoesOn (D.shown disk.old) (D.shown disk.new)
            (D.faults disk.old) (D.faults disk.new) }
    {
        match find(alloc, disk) {
            Ok(found) => Imaged::Payloads(found.payloads),
            Err(ReadFault::Foreign) => Imaged::Foreign,
            Err(ReadFault::Disk) => Imaged::DiskFault,
            Err(ReadFault::Memory) => Imaged::Memory,
        }
    }

    /// Gives the disk back.
    pub fn inner(self) -> D
        ensures { result ≡ self.disk }
    {
        let Journal {
            disk,
            place: _,
            buffer: _,
            failed: _,
        } = self;
        disk
    }

    /// 1 or 2.
    pub fn version(&self) -> u8
        ensures { result ≡ digit self.now.place.version }
    {
        match self.place.version {
            Version::One => 1,
            Version::Two => 2,
        }
    }

    /// Whether it isn't open, or an append or a snapshot of it failed. Then no other is made: an opening says
    /// what stands there.
    pub fn has_failed(&self) -> bool
        ensures exact { result ≡ self.now.failed }
        ensures stands { self.now.failed ≡ false → IsTrue (D.shown self.now.disk).tells →
            StandsAt self.now.place (D.shown self.now.disk) }
    {
        self.failed
    }

    /// Whether a snapshot would make it shorter by much.
    pub fn is_long(&self) -> bool
        ensures { IsTrue result ↔ IsLong self.now.place }
    {
        self.place.is_long()
    }

    /// Takes the memory for the append of a record of n bytes, the disk's room among it.
    #[tactic(auto, using(crate::proofs::Runs::ready_same))]
    pub fn reserve(&mut self, n: usize) -> Result<(), AllocError>
        ensures reserved { OnOk result
            (HasReserved n self.new.place self.new.room (D.shown self.new.disk)) }
        ensures ready { IsTrue (D.shown self.old.disk).tells → (image : ImageData) →
            IsReady image (D.shown self.old.disk) → IsReady image (D.shown self.new.disk) }
        ensures place { self.new.place ≡ self.old.place }
        ensures failed { self.new.failed ≡ self.old.failed }
        ensures room { self.old.room ≤ self.new.room }
        ensures content { IsTrue (D.shown self.old.disk).tells →
            SameContent (D.shown self.old.disk) (D.shown self.new.disk) }
        ensures kept { KeepsRoom self.old.place.half
            (D.shown self.old.disk) (D.shown self.new.disk) }
        ensures memory { OnErr result
            ((D.shown self.new.disk).room ≡ (D.shown self.old.disk).room) }
        ensures tells { (D.shown self.new.disk).tells ≡ (D.shown self.old.disk).tells }
        ensures faults { D.faults self.new.disk ≡ D.faults self.old.disk }
    {
        if !self.place.has_next(n as u64) {
            return Err(AllocError);
        }
        self.buffer.reserve(n + 17)?;
        let n = n as u64;
        self.disk
            .room(self.place.half, self.place.end + n + 18, n + 18, 4)
    }

    /// Adds a record. At Ok it is acknowledged: it stays through each crash from then on. It takes no
    /// memory.
    pub fn append(&mut self, bytes: &[u8]) -> Result<(), DiskFailed>
        requires version { self.old.place.version ≡ Two }
        requires reserved { HasReserved (length bytes.now) self.old.place self.old.room
            (D.shown self.old.disk) }
        requires going { self.old.failed ≡ false }

        // A crash at any moment of the call leaves the image with the record or without it.
        ensures any_moment { IsTrue (D.shown self.old.disk).tells → (image : ImageData) →
            self.old.place ≡ place_of image → IsReady image (D.shown self.old.disk) →
            LeavesOnly (D.shown self.old.disk) (D.shown self.new.disk)
            (LeavesEither image bytes.now) }
        ensures unsynced { IsTrue (D.shown self.old.disk).tells → (image : ImageData) →
            self.old.place ≡ place_of image → IsReady image (D.shown self.old.disk) →
            IsLastUnsynced (D.shown self.new.disk) }
        ensures acknowledged { IsTrue (D.shown self.old.disk).tells → (image : ImageData) →
            self.old.place ≡ place_of image → IsReady image (D.shown self.old.disk) → OnOk result
            ((self.new.place ≡ place_of (with_next image bytes.now))
            × IsReady (with_next image bytes.now) (D.shown self.new.disk)) }

        ensures version { self.new.place.version ≡ Two }
        ensures place { OnOk result
            (self.new.place ≡ next_place (length bytes.now) self.old.place) }
        ensures going { (self.new.failed ≡ false) ↔ IsOk result }
        ensures tells { (D.shown self.new.disk).tells ≡ (D.shown self.old.disk).tells }
        ensures cause { HasCause (D.faults self.old.disk) (D.faults self.new.disk) result }
    {
        self.failed = true;
        self.buffer.fill(self.place.count + 1, bytes);
        add_record(&mut self.disk, self.place, self.buffer.as_slice())?;
        self.place = self.place.next(bytes.len() as u64);
        self.failed = false;
        Ok(())
    }

    /// Whether the epoch can still rise by a snapshot.
    pub fn can_snapshot(&self) -> bool
        ensures { IsTrue result ↔ (self.now.place.epoch < 2 ^ 62 - 1) }
    {
        self.place.epoch < (1 << 62) - 1
    }

    /// Takes the memory for a snapshot of n bytes, the disk's room on the half that isn't live among it.
    #[tactic(auto, using(crate::proofs::Runs::ready_same))]
    pub fn reserve_snapshot(&mut self, n: usize) -> Result<(), AllocError>
        ensures reserved { OnOk result
            (HasSnapshotRoom n self.new.place self.new.room (D.shown self.new.disk)) }
        ensures ready { IsTrue (D.shown self.old.disk).tells → (image : ImageData) →
            IsReady image (D.shown self.old.disk) → IsReady image (D.shown self.new.disk) }
        ensures place { self.new.place ≡ self.old.place }
        ensures failed { self.new.failed ≡ self.old.failed }
        ensures room { self.old.room ≤ self.new.room }
        ensures content { IsTrue (D.shown self.old.disk).tells →
            SameContent (D.shown self.old.disk) (D.shown self.new.disk) }
        ensures kept { KeepsRoom (other self.old.place.half)
            (D.shown self.old.disk) (D.shown self.new.disk) }
        ensures memory { OnErr result
            ((D.shown self.new.disk).room ≡ (D.shown self.old.disk).room) }
        ensures tells { (D.shown self.new.disk).tells ≡ (D.shown self.old.disk).tells }
        ensures faults { D.faults self.new.disk ≡ D.faults self.old.disk }
    {
        if n as u64 > u64::MAX - 51 {
            return Err(AllocError);
        }
        self.buffer.reserve(n + 17)?;
        let n = n as u64;
        let half = other(self.place.half);
        self.disk.room(half, n + 34, n + 51, 7)
    }

    /// Puts a snapshot into the half that isn't live, which is then live, in version 2 and the next
    /// epoch, with this one record. It takes no memory.
    pub fn snapshot(&mut self, bytes: &[u8]) -> Result<(), DiskFailed>
        requires young { self.old.place.epoch < 2 ^ 62 - 1 }
        requires reserved { HasSnapshotRoom (length bytes.now) self.old.place self.old.room
            (D.shown self.old.disk) }
        requires going { self.old.failed ≡ false }

        // A crash at any moment of the call leaves the image from before it or the snapshot's.
        ensures any_moment { IsTrue (D.shown self.old.disk).tells → (image : ImageData) →
            self.old.place ≡ place_of image → IsReady image (D.shown self.old.disk) →
            LeavesOnly (D.shown self.old.disk) (D.shown self.new.disk)
            (LeavesSnapshot image bytes.now) }
        ensures unsynced { IsTrue (D.shown self.old.disk).tells → (image : ImageData) →
            self.old.place ≡ place_of image → IsReady image (D.shown self.old.disk) →
            IsLastUnsynced (D.shown self.new.disk) }
        ensures taken { IsTrue (D.shown self.old.disk).tells → (image : ImageData) →
            self.old.place ≡ place_of image → IsReady image (D.shown self.old.disk) → OnOk result
            ((self.new.place ≡ place_of (fresh_snapshot image bytes.now))
            × IsReady (fresh_snapshot image bytes.now) (D.shown self.new.disk)) }

        ensures version { OnOk result (self.new.place.version ≡ Two) }
        ensures place { OnOk result
            (self.new.place ≡ snapshot_place (length bytes.now) self.old.place) }
        ensures going { (self.new.failed ≡ false) ↔ IsOk result }
        ensures tells { (D.shown self.new.disk).tells ≡ (D.shown self.old.disk).tells }
        ensures cause { HasCause (D.faults self.old.disk) (D.faults self.new.disk) result }
    {
        self.failed = true;
        self.buffer.fill(1, bytes);
        write_snapshot(&mut self.disk, self.place, self.buffer.as_slice())?;
        self.place = self.place.after_snapshot(bytes.len() as u64);
        self.failed = false;
        Ok(())
    }
}
