//! The calls of a disk in memory, and its crash.
ghost use Rattle.std.specs.Prelude.{◌≡◌, ◌≤◌, [], length, IsTrue, IfOk, OnOk, OnErr};
ghost use Rattle.heat_disk.specs.Halves.{Pair, part, beside, changed};
ghost use Rattle.heat_disk.specs.Shown.{HasRoom, IsLeft, IsAtLeast, Spends, SameContent};
ghost use Rattle.heat_disk.specs.Calls.{Measures, Reads, Writes, Cuts, Syncs};
ghost use Rattle.heat_disk.specs.Causes.{HasCause};
ghost use Rattle.heat_disk.specs.History.{wrote, cut_to, synced, sides, image_of};
ghost use Rattle.heat_disk.specs.Memory.{shown_by, done, wider, IsNumbered};
ghost use Rattle.heat_disk.specs.Sound.{lawful_history};

use crate::bytes::fill;
use crate::disk::{Disk, DiskFailed};
use crate::half::Half;
use crate::memory::MemDisk;
use std::alloc::AllocError;

impl Disk for MemDisk {
    ghost shown = { shown_by };

    ghost faults = { λ disk. disk.faults };

    ghost lawful = { λ disk tells. lawful_history disk.start disk.calls disk.room };

    fn len(&mut self, half: Half) -> Result<u64, DiskFailed>
        ensures numbered { IsNumbered (λ disk. disk) result self.old self.new }
        ensures content { IsTrue (shown_by self.old).tells →
            Measures half result (shown_by self.old) (shown_by self.new) }
        ensures tells { (shown_by self.new).tells ≡ (shown_by self.old).tells }
        ensures room { Spends half 0 0 (shown_by self.old) (shown_by self.new) }
        ensures cause { HasCause self.old.faults self.new.faults result }
    {
        self.count()?;
        Ok(self.bytes(half).len() as u64)
    }

    fn read_at(&mut self, half: Half, at: u64, buf: &mut [u8]) -> Result<usize, DiskFailed>
        ensures numbered { IsNumbered (λ disk. disk) result self.old self.new }
        ensures count { IfOk result (λ n. n ≤ length buf.old) }
        ensures content { IsTrue (shown_by self.old).tells →
            Reads half at buf.old buf.new result (shown_by self.old) (shown_by self.new) }
        ensures tells { (shown_by self.new).tells ≡ (shown_by self.old).tells }
        ensures room { Spends half 0 0 (shown_by self.old) (shown_by self.new) }
        ensures cause { HasCause self.old.faults self.new.faults result }
    {
        self.count()?;
        Ok(fill(buf, self.bytes(half), at as usize))
    }

    fn write_at(&mut self, half: Half, at: u64, bytes: &[u8]) -> Result<(), DiskFailed>
        requires at { IsTrue (shown_by self.old).tells →
            at ≤ length (part half (shown_by self.old).seen) }
        requires room { HasRoom (part half (shown_by self.old).room) at (length bytes.now) }
        ensures numbered { IsNumbered (done half (wrote at bytes.now)) result self.old self.new }
        ensures content { IsTrue (shown_by self.old).tells →
            Writes half at bytes.now result (shown_by self.old) (shown_by self.new) }
        ensures tells { (shown_by self.new).tells ≡ (shown_by self.old).tells }
        ensures room { Spends half 1 (length bytes.now) (shown_by self.old) (shown_by self.new) }
        ensures cause { HasCause self.old.faults self.new.faults result }
    {
        self.count()?;
        self.write(half, at, bytes);
        Ok(())
    }

    fn cut(&mut self, half: Half, len: u64) -> Result<(), DiskFailed>
        requires len { IsTrue (shown_by self.old).tells →
            len ≤ length (part half (shown_by self.old).seen) }
        requires room { HasRoom (part half (shown_by self.old).room) 0 0 }
        ensures numbered { IsNumbered (done half (cut_to len)) result self.old self.new }
        ensures content { IsTrue (shown_by self.old).tells →
            Cuts half len result (shown_by self.old) (shown_by self.new) }
        ensures tells { (shown_by self.new).tells ≡ (shown_by self.old).tells }
        ensures room { Spends half 1 0 (shown_by self.old) (shown_by self.new) }
        ensures cause { HasCause self.old.faults self.new.faults result }
    {
        self.count()?;
        self.shorten(half, len);
        Ok(())
    }

    fn sync(&mut self, half: Half) -> Result<(), DiskFailed>
        requires room { HasRoom (part half (shown_by self.old).room) 0 0 }
        ensures numbered { IsNumbered (done half synced) result self.old self.new }
        ensures content { IsTrue (shown_by self.old).tells →
            Syncs half result (shown_by self.old) (shown_by self.new) }
        ensures tells { (shown_by self.new).tells ≡ (shown_by self.old).tells }
        ensures room { Spends half 1 0 (shown_by self.old) (shown_by self.new) }
        ensures cause { HasCause self.old.faults self.new.faults result }
    {
        self.count()?;
        self.settle(half);
        Ok(())
    }

    fn room(&mut self, half: Half, end: u64, bytes: u64, calls: u64) -> Result<(), AllocError>
        ensures exact { OnOk result (self.new ≡ wider half end bytes calls self.old) }
        ensures same { OnErr result (self.new ≡ self.old) }
        ensures made { OnOk result
            (IsAtLeast end bytes calls (part half (shown_by self.new).room)) }
        ensures kept { IsLeft 0 0 (part half (shown_by self.old).room)
            (part half (shown_by self.new).room) }
        ensures other { beside half (shown_by self.new).room
            ≡ beside half (shown_by self.old).room }
        ensures memory { OnErr result ((shown_by self.new).room ≡ (shown_by self.old).room) }
        ensures content { IsTrue (shown_by self.old).tells →
            SameContent (shown_by self.old) (shown_by self.new) }
        ensures tells { (shown_by self.new).tells ≡ (shown_by self.old).tells }
        ensures faults { self.new.faults ≡ self.old.faults }
    {
        self.widen(half, end, bytes, calls)
    }
}
