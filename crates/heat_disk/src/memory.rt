//! A disk in memory. It keeps a list of all its writes, cuts and syncs, so it tells what a crash may
//! leave at each moment, and can crash. The calls whose numbers are listed fail, and change nothing.
ghost use Rattle.std.specs.Prelude.{is_err, IsSome, ◌≡◌, ◌≤◌, ◌+◌, max, [], Option};
ghost use Rattle.std.specs.Prelude.{None, IfOk, OnOk, OnErr, IsTrue, length};
ghost use Rattle.heat_disk.specs.Halves.{Pair, part, beside, changed};
ghost use Rattle.heat_disk.specs.Shown.{HasRoom, IsDurable};
ghost use Rattle.heat_disk.specs.Causes.{HasCause};
ghost use Rattle.heat_disk.specs.History.{wrote, cut_to, synced, sides, image_of, side};
ghost use Rattle.heat_disk.specs.Memory.{fails_next, fresh, shown_by, counted, done, wider, IsLongest, IsNumbered};

use crate::content::Content;
use crate::disk::DiskFailed;
use crate::half::Half;
use crate::history::History;
use std::alloc::{AllocError, Global};
use std::marker::Model;

/// Both halves with their writes, cuts and syncs, and the numbers of the calls that fail.
pub struct MemDisk {
    first: Content,
    second: Content,
    history: History,
    fails: Vec<u64>,
    numbered: u64,
    faults: u64,
}

impl Drop for MemDisk {
    fn drop(self) {
        let MemDisk {
            first: _,
            second: _,
            history: _,
            fails: _,
            numbered: _,
            faults: _,
        } = self;
    }
}

impl Model for MemDisk {
    ghost use Rattle.heat_disk.specs.Memory.{Kept};

    ghost Value = { Kept };

    ghost use Rattle.heat_disk.specs.Stored.{kept_of, Agrees};

    ghost view = { kept_of };

    ghost invariant = { Agrees };
}

impl MemDisk {
    /// An empty disk, of which the calls with these numbers fail. The first call has the number 1.
    pub fn new(alloc: Global, fails: &[u64]) -> Result<MemDisk, AllocError>
        ensures fresh { IfOk result (λ disk. disk ≡ fresh ([], []) fails.now) }
        ensures durable { IfOk result (λ disk. IsDurable (shown_by disk)) }
    {
        MemDisk::holding(alloc, &[], &[], fails)
    }

    /// A disk that holds these bytes, all of them synced.
    pub fn holding(
        alloc: Global,
        first: &[u8],
        second: &[u8],
        fails: &[u64],
    ) -> Result<MemDisk, AllocError>
        ensures fresh { IfOk result (λ disk. disk ≡ fresh (first.now, second.now) fails.now) }
        ensures durable { IfOk result (λ disk. IsDurable (shown_by disk)) }
    {
        Ok(MemDisk {
            first: Content::new(alloc, first)?,
            second: Content::new(alloc, second)?,
            history: History::new(alloc),
            fails: Vec::from_slice(alloc, fails)?,
            numbered: 0,
            faults: 0,
        })
    }

    /// What the half reads as.
    pub fn bytes(&self, half: Half) -> &[u8]
        ensures { result.now ≡ part half (shown_by self.now).seen }
    {
        match half {
            Half::First => self.first.held(),
            Half::Second => self.second.held(),
        }
    }

    /// How many of its calls have failed.
    pub fn faults(&self) -> u64
        ensures { result ≡ self.now.faults }
    {
        self.faults
    }

    /// Numbers a call, and fails it where the number is listed.
    pub(crate) fn count(&mut self) -> Result<(), DiskFailed>
        ensures fails { is_err result ≡ fails_next self.old }
        ensures after { self.new ≡ counted self.old }
        ensures cause { HasCause self.old.faults self.new.faults result }
    {
        if self.numbered == u64::MAX {
            return Ok(());
        }
        self.numbered += 1;
        if self.fails.contains(&self.numbered) {
            self.faults = self.faults.saturating_add(1);
            return Err(DiskFailed);
        }
        Ok(())
    }

    /// Writes bytes, and notes the write.
    pub(crate) fn write(&mut self, half: Half, at: u64, bytes: &[u8])
        requires at { at ≤ length (part half (shown_by self.old).seen) }
        requires room { HasRoom (part half self.old.room) at (length bytes.now) }
        ensures { self.new ≡ done half (wrote at bytes.now) self.old }
    {
        self.history.wrote(half, at, bytes);
        match half {
            Half::First => self.first.write(at, bytes),
            Half::Second => self.second.write(at, bytes),
        }
    }

    /// Cuts a half to this length, and notes the cut.
    pub(crate) fn shorten(&mut self, half: Half, len: u64)
        requires { HasRoom (part half self.old.room) 0 0 }
        ensures { self.new ≡ done half (cut_to len) self.old }
    {
        self.history.cut(half, len);
        match half {
            Half::First => self.first.cut(len),
            Half::Second => self.second.cut(len),
        }
    }

    /// Notes the sync of a half.
    pub(crate) fn settle(&mut self, half: Half)
        requires { HasRoom (part half self.old.room) 0 0 }
        ensures { self.new ≡ done half synced self.old }
    {
        self.history.synced(half);
        match half {
            Half::First => self.first.sync(),
            Half::Second => self.second.sync(),
        }
    }

    /// Takes memory, so that the room of the half is at least this. After Memory nothing has changed.
    pub(crate) fn widen(
        &mut self,
        half: Half,
        end: u64,
        bytes: u64,
        calls: u64,
    ) -> Result<(), AllocError>
        ensures ok { OnOk result (self.new ≡ wider half end bytes calls self.old) }
        ensures err { OnErr result (self.new ≡ self.old) }
    {
        let (all_calls, all_bytes) = match half {
            Half::First => (
                wider_by(self.first.calls(), calls, self.second.calls())?,
                wider_by(self.first.bytes(), bytes, self.second.bytes())?,
            ),
            Half::Second => (
                wider_by(self.second.calls(), calls, self.first.calls())?,
                wider_by(self.second.bytes(), bytes, self.first.bytes())?,
            ),
        };
        self.history.reserve(all_calls, all_bytes)?;
        match half {
            Half::First => self.first.widen(end, bytes, calls),
            Half::Second => self.second.widen(end, bytes, calls),
        }
    }

    // The bytes of one image that a crash may leave of the half.
    fn image(&self, half: Half, fill: Option<u8>) -> Result<Vec<u8>, AllocError>
        ensures { IfOk result (λ image. image.items
            ≡ part half (image_of fill (sides self.now.start self.now.calls))) }
    {
        let content = match half {
            Half::First => &self.first,
            Half::Second => &self.second,
        };
        match fill {
            None => Vec::from_slice(*self.fails.allocator(), content.held()),
            Some(byte) => self.history.longest(half, content.start(), byte),
        }
    }

    /// A disk as it may be found after a crash now, before its first call. None is what this one reads
    /// as. `Some(b)` is, of each half, the longest that a crash may leave, with b at every place where
    /// any byte may stand, and all others as they are.
    pub fn crash(&self, fill: Option<u8>) -> Result<MemDisk, AllocError>
        ensures image { IfOk result (λ disk. disk
            ≡ fresh (image_of fill (sides self.now.start self.now.calls)) []) }
        ensures durable { IfOk result (λ disk. IsDurable (shown_by disk)) }
        ensures may_be_left { IfOk result
            (λ disk. (shown_by self.now).may_leave (shown_by disk).seen) }
        ensures longest { IsSome fill → IfOk result (IsLongest (shown_by self.now)) }
    {
        let first = self.image(Half::First, fill)?;
        let second = self.image(Half::Second, fill)?;
        MemDisk::holding(*self.fails.allocator(), &first, &second, &[])
    }
}

// What both halves take of one sort, where one of them asks for `more` in place of `old`.
fn wider_by(old: u64, more: u64, other: u64) -> Result<usize, AllocError>
    ensures { IfOk result (λ n. n ≡ max old more + other) }
{
    let most = if old < more { more } else { old };
    match most.checked_add(other) {
        Some(sum) => Ok(sum as usize),
        None => Err(AllocError),
    }
}
