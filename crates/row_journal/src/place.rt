//! Where the next record goes.
ghost use Rattle.std.specs.Prelude.{◌≡◌, ◌↔◌, ◌+◌, ◌<◌, ◌-◌, ◌^◌, ◌==◌, if◌then◌else◌, List, ℕ, length, IsTrue};
ghost use Rattle.row_journal.specs.declared.version.Version.TheVariants.{Two};
ghost use Rattle.row_journal.specs.Images.{ImageData};
ghost use Rattle.row_journal.specs.Ends.{with_next};
ghost use Rattle.row_journal.specs.NextPlaces.{next_place, snapshot_place};
ghost use Rattle.row_journal.specs.Places.{place_of, IsLong};
ghost use Rattle.row_journal.specs.Snapshots.{fresh_snapshot};

use crate::Version;
use crate::mending::other;
use heat_disk::Half;

/// What a journal keeps of its image.
#[derive(Clone, Copy, Debug, PartialEq, Eq)]
pub struct Place {
    /// The live half.
    pub half: Half,
    pub version: Version,
    pub epoch: u64,
    /// The place of its first record: 8, or 16 where the half is born.
    pub start: u64,
    /// How many records it has.
    pub count: u64,
    /// The place behind the first record.
    pub first_end: u64,
    /// The place behind the last one, where its gate stands.
    pub end: u64,
}

impl Place {
    /// That of an empty journal.
    pub(crate) fn first() -> Place {
        Place {
            half: Half::First,
            version: Version::Two,
            epoch: 0,
            start: 8,
            count: 0,
            first_end: 8,
            end: 8,
        }
    }

    /// Whether a record more, of so many bytes, has its numbers within 64 bits.
    pub(crate) fn has_next(self, len: u64) -> bool
        ensures end { IsTrue result → self.end + len + 18 < 2 ^ 64 }
        ensures number { IsTrue result → self.count + 1 < 2 ^ 64 }
    {
        let most = u64::MAX - 18;
        self.count < u64::MAX && self.end <= most && len <= most - self.end
    }

    /// Behind one record more, of so many bytes.
    pub(crate) fn next(self, len: u64) -> Place
        requires end { self.end + len + 18 < 2 ^ 64 }
        requires number { self.count + 1 < 2 ^ 64 }
        ensures version { result.version ≡ self.version }
        ensures exact { result ≡ next_place len self }
        ensures next { (image : ImageData) (payload : List ℕ) → self ≡ place_of image →
            image.version ≡ Two → len ≡ length payload →
            result ≡ place_of (with_next image payload) }
    {
        let end = self.end + len + 17;
        Place {
            count: self.count + 1,
            first_end: self.first_end_with(end),
            end,
            ..self
        }
    }

    // The place behind the first record, where one more ends there.
    fn first_end_with(self, end: u64) -> u64
        ensures { result ≡ (if self.count == 0 then end else self.first_end) }
    {
        if self.count == 0 { end } else { self.first_end }
    }

    /// Behind the one record, of so many bytes, of a snapshot on the other half.
    pub(crate) fn after_snapshot(self, len: u64) -> Place
        requires young { self.epoch < 2 ^ 62 - 1 }
        requires end { len + 33 < 2 ^ 64 }
        ensures version { result.version ≡ Two }
        ensures exact { result ≡ snapshot_place len self }
        ensures next { (image : ImageData) (payload : List ℕ) → self ≡ place_of image →
            len ≡ length payload → result ≡ place_of (fresh_snapshot image payload) }
    {
        Place {
            half: other(self.half),
            version: Version::Two,
            epoch: self.epoch + 1,
            start: 16,
            count: 1,
            first_end: len + 33,
            end: len + 33,
        }
    }

    /// Whether the journal is long, and its epoch may still rise.
    pub(crate) fn is_long(self) -> bool
        ensures { IsTrue result ↔ IsLong self }
    {
        self.end > 1 << 20
            && (self.start != 16 || self.first_end <= self.end / 2)
            && self.epoch < (1 << 62) - 1
    }
}
