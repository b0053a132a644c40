//! A disk of two halves as its users see it: what it shows, its calls, its laws. Where it doesn't
//! tell its content, the clauses on its room and its faults alone say something.
ghost use Rattle.std.specs.Prelude.{◌≡◌, ℕ, ◌≤◌, length, IsTrue, IfOk, OnOk, OnErr};
ghost use Rattle.heat_disk.specs.Halves.{part, beside};
ghost use Rattle.heat_disk.specs.Shown.{ShownDisk, HasRoom, IsLeft, IsAtLeast, Spends, SameContent, IsLawful};
ghost use Rattle.heat_disk.specs.Calls.{Measures, Reads, Writes, Cuts, Syncs};
ghost use Rattle.heat_disk.specs.Causes.{HasCause};

use crate::half::Half;
use std::alloc::AllocError;

/// A call of the disk failed. Its count of faults has risen.
#[derive(Clone, Copy, Debug, PartialEq, Eq)]
pub struct DiskFailed;

/// Two halves of bytes that may be read, written, cut and synced.
pub trait Disk {
    /// What it tells, reads as, may leave after a crash, and has room for.
    ghost shown: { Self → ShownDisk };

    /// How often it has failed. The count never falls.
    ghost faults: { Self → ℕ };

    /// How many bytes the half has.
    fn len(&mut self, half: Half) -> Result<u64, DiskFailed>
        ensures content { IsTrue (shown self.old).tells →
            Measures half result (shown self.old) (shown self.new) }
        ensures tells { (shown self.new).tells ≡ (shown self.old).tells }
        ensures room { Spends half 0 0 (shown self.old) (shown self.new) }
        ensures cause { HasCause (faults self.old) (faults self.new) result };

    /// Reads what there is from that place on, as far as the buffer goes. Past the end it is nothing.
    fn read_at(&mut self, half: Half, at: u64, buf: &mut [u8]) -> Result<usize, DiskFailed>
        ensures count { IfOk result (λ n. n ≤ length buf.old) }
        ensures content { IsTrue (shown self.old).tells →
            Reads half at buf.old buf.new result (shown self.old) (shown self.new) }
        ensures tells { (shown self.new).tells ≡ (shown self.old).tells }
        ensures room { Spends half 0 0 (shown self.old) (shown self.new) }
        ensures cause { HasCause (faults self.old) (faults self.new) result };

    /// Writes over what is there, and past the end. Until a sync, a crash may leave any bytes in the
    /// range, also where the write failed.
    fn write_at(&mut self, half: Half, at: u64, bytes: &[u8]) -> Result<(), DiskFailed>
        requires at { IsTrue (shown self.old).tells →
            at ≤ length (part half (shown self.old).seen) }
        requires room { HasRoom (part half (shown self.old).room) at (length bytes.now) }
        ensures content { IsTrue (shown self.old).tells →
            Writes half at bytes.now result (shown self.old) (shown self.new) }
        ensures tells { (shown self.new).tells ≡ (shown self.old).tells }
        ensures room { Spends half 1 (length bytes.now) (shown self.old) (shown self.new) }
        ensures cause { HasCause (faults self.old) (faults self.new) result };

    /// Cuts the half to a length. Until a sync, a crash may leave more of what stood there, also where
    /// the cut failed.
    fn cut(&mut self, half: Half, len: u64) -> Result<(), DiskFailed>
        requires len { IsTrue (shown self.old).tells →
            len ≤ length (part half (shown self.old).seen) }
        requires room { HasRoom (part half (shown self.old).room) 0 0 }
        ensures content { IsTrue (shown self.old).tells →
            Cuts half len result (shown self.old) (shown self.new) }
        ensures tells { (shown self.new).tells ≡ (shown self.old).tells }
        ensures room { Spends half 1 0 (shown self.old) (shown self.new) }
        ensures cause { HasCause (faults self.old) (faults self.new) result };

    /// After it, a crash leaves of this half what a read gives.
    fn sync(&mut self, half: Half) -> Result<(), DiskFailed>
        requires room { HasRoom (part half (shown self.old).room) 0 0 }
        ensures content { IsTrue (shown self.old).tells →
            Syncs half result (shown self.old) (shown self.new) }
        ensures tells { (shown self.new).tells ≡ (shown self.old).tells }
        ensures room { Spends half 1 0 (shown self.old) (shown self.new) }
        ensures cause { HasCause (faults self.old) (faults self.new) result };

    /// Takes the memory for the next writes, cuts and syncs of the half: so many calls, of so many bytes
    /// in all, none past that end.
    fn room(&mut self, half: Half, end: u64, bytes: u64, calls: u64) -> Result<(), AllocError>
        ensures made { OnOk result (IsAtLeast end bytes calls (part half (shown self.new).room)) }
        ensures kept { IsLeft 0 0 (part half (shown self.old).room)
            (part half (shown self.new).room) }
        ensures other { beside half (shown self.new).room ≡ beside half (shown self.old).room }
        ensures memory { OnErr result ((shown self.new).room ≡ (shown self.old).room) }

        ensures content { IsTrue (shown self.old).tells →
            SameContent (shown self.old) (shown self.new) }
        ensures tells { (shown self.new).tells ≡ (shown self.old).tells }
        ensures faults { faults self.new ≡ faults self.old };

    ghost lawful: { (disk : Self) → IsTrue (shown disk).tells → IsLawful (shown disk) };
}
