//! A stop at some call, as a disk: it passes so many calls on, and fails every one after them.
ghost use Rattle.std.specs.Prelude.{◌≡◌, ◌+◌, ◌-◌, ◌≤◌, ◌↔◌, length, IsTrue, IsOk, IsErr, IfOk, OnOk, OnErr};
ghost use Rattle.heat_disk.specs.Halves.{part, beside};
ghost use Rattle.heat_disk.specs.Shown.{HasRoom, IsLeft, IsAtLeast, Spends, SameContent};
ghost use Rattle.heat_disk.specs.Calls.{Measures, Reads, Writes, Cuts, Syncs};
ghost use Rattle.heat_disk.specs.Causes.{HasCause};
ghost use Rattle.heat_disk.specs.Fuse.{disk_of, passes_left, own_faults, Burns};

use crate::{Disk, DiskFailed, Half};
use std::alloc::AllocError;

/// A disk that passes so many calls on and fails all others. Making room is no call that counts.
#[derive(Drop)]
pub struct Fuse<D: Disk> {
    disk: D,
    passes: u64,
    faults: u64,
}

impl<D: Disk> Fuse<D> {
    /// A fuse that has passed nothing on yet.
    pub fn new(disk: D, passes: u64) -> Fuse<D>
        ensures disk { disk_of result ≡ disk }
        ensures passes { passes_left result ≡ passes }
        ensures faults { own_faults result ≡ 0 }
    {
        Fuse {
            disk,
            passes,
            faults: 0,
        }
    }

    /// Gives the disk back.
    pub fn inner(self) -> D
        ensures { result ≡ disk_of self }
    {
        let Fuse {
            disk,
            passes: _,
            faults: _,
        } = self;
        disk
    }
}

// One call fewer is passed on; where none was left, it fails.
fn spend(passes: &mut u64, faults: &mut u64) -> Result<(), DiskFailed>
    ensures blown { IsErr result ↔ (passes.old ≡ 0) }
    ensures spent { passes.new ≡ passes.old - 1 }
    ensures passed { IsOk result → faults.new ≡ faults.old }
    ensures cause { HasCause faults.old faults.new result }
{
    if *passes == 0 {
        *faults = faults.saturating_add(1);
        return Err(DiskFailed);
    }
    *passes -= 1;
    Ok(())
}

impl<D: Disk> Disk for Fuse<D> {
    ghost shown = { λ f. D.shown f.disk };

    ghost faults = { λ f. D.faults f.disk + f.faults };

    ghost lawful = { λ f. D.Disk.lawful f.disk };

    fn len(&mut self, half: Half) -> Result<u64, DiskFailed>
        ensures burns { Burns self.old self.new result }
        ensures content { IsTrue (D.shown self.old.disk).tells →
            Measures half result (D.shown self.old.disk) (D.shown self.new.disk) }
        ensures tells { (D.shown self.new.disk).tells ≡ (D.shown self.old.disk).tells }
        ensures room { Spends half 0 0 (D.shown self.old.disk) (D.shown self.new.disk) }
        ensures cause { HasCause (D.faults self.old.disk + self.old.faults)
            (D.faults self.new.disk + self.new.faults) result }
    {
        spend(&mut self.passes, &mut self.faults)?;
        self.disk.len(half)
    }

    fn read_at(&mut self, half: Half, at: u64, buf: &mut [u8]) -> Result<usize, DiskFailed>
        ensures burns { Burns self.old self.new result }
        ensures count { IfOk result (λ n. n ≤ length buf.old) }
        ensures content { IsTrue (D.shown self.old.disk).tells →
            Reads half at buf.old buf.new result (D.shown self.old.disk) (D.shown self.new.disk) }
        ensures tells { (D.shown self.new.disk).tells ≡ (D.shown self.old.disk).tells }
        ensures room { Spends half 0 0 (D.shown self.old.disk) (D.shown self.new.disk) }
        ensures cause { HasCause (D.faults self.old.disk + self.old.faults)
            (D.faults self.new.disk + self.new.faults) result }
    {
        spend(&mut self.passes, &mut self.faults)?;
        self.disk.read_at(half, at, buf)
    }

    fn write_at(&mut self, half: Half, at: u64, bytes: &[u8]) -> Result<(), DiskFailed>
        requires at { IsTrue (D.shown self.old.disk).tells →
            at ≤ length (part half (D.shown self.old.disk).seen) }
        requires room { HasRoom (part half (D.shown self.old.disk).room) at (length bytes.now) }
        ensures burns { Burns self.old self.new result }
        ensures content { IsTrue (D.shown self.old.disk).tells →
            Writes half at bytes.now result (D.shown self.old.disk) (D.shown self.new.disk) }
        ensures tells { (D.shown self.new.disk).tells ≡ (D.shown self.old.disk).tells }
        ensures room { Spends half 1 (length bytes.now)
            (D.shown self.old.disk) (D.shown self.new.disk) }
        ensures cause { HasCause (D.faults self.old.disk + self.old.faults)
            (D.faults self.new.disk + self.new.faults) result }
    {
        spend(&mut self.passes, &mut self.faults)?;
        self.disk.write_at(half, at, bytes)
    }

    fn cut(&mut self, half: Half, len: u64) -> Result<(), DiskFailed>
        requires len { IsTrue (D.shown self.old.disk).tells →
            len ≤ length (part half (D.shown self.old.disk).seen) }
        requires room { HasRoom (part half (D.shown self.old.disk).room) 0 0 }
        ensures burns { Burns self.old self.new result }
        ensures content { IsTrue (D.shown self.old.disk).tells →
            Cuts half len result (D.shown self.old.disk) (D.shown self.new.disk) }
        ensures tells { (D.shown self.new.disk).tells ≡ (D.shown self.old.disk).tells }
        ensures room { Spends half 1 0 (D.shown self.old.disk) (D.shown self.new.disk) }
        ensures cause { HasCause (D.faults self.old.disk + self.old.faults)
            (D.faults self.new.disk + self.new.faults) result }
    {
        spend(&mut self.passes, &mut self.faults)?;
        self.disk.cut(half, len)
    }

    fn sync(&mut self, half: Half) -> Result<(), DiskFailed>
        requires room { HasRoom (part half (D.shown self.old.disk).room) 0 0 }
        ensures burns { Burns self.old self.new result }
        ensures content { IsTrue (D.shown self.old.disk).tells →
            Syncs half result (D.shown self.old.disk) (D.shown self.new.disk) }
        ensures tells { (D.shown self.new.disk).tells ≡ (D.shown self.old.disk).tells }
        ensures room { Spends half 1 0 (D.shown self.old.disk) (D.shown self.new.disk) }
        ensures cause { HasCause (D.faults self.old.disk + self.old.faults)
            (D.faults self.new.disk + self.new.faults) result }
    {
        spend(&mut self.passes, &mut self.faults)?;
        self.disk.sync(half)
    }

    fn room(&mut self, half: Half, end: u64, bytes: u64, calls: u64) -> Result<(), AllocError>
        ensures passes { self.new.passes ≡ self.old.passes }
        ensures own { self.new.faults ≡ self.old.faults }
        ensures made { OnOk result
            (IsAtLeast end bytes calls (part half (D.shown self.new.disk).room)) }
        ensures kept { IsLeft 0 0 (part half (D.shown self.old.disk).room)
            (part half (D.shown self.new.disk).room) }
        ensures other { beside half (D.shown self.new.disk).room
            ≡ beside half (D.shown self.old.disk).room }
        ensures memory { OnErr result ((D.shown self.new.disk).room
            ≡ (D.shown self.old.disk).room) }

        ensures content { IsTrue (D.shown self.old.disk).tells →
            SameContent (D.shown self.old.disk) (D.shown self.new.disk) }
        ensures tells { (D.shown self.new.disk).tells ≡ (D.shown self.old.disk).tells }
        ensures faults { D.faults self.new.disk + self.new.faults
            ≡ D.faults self.old.disk + self.old.faults }
    {
        self.disk.room(half, end, bytes, calls)
    }
}
