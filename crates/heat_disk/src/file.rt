//! A disk over two files of the system, as std gives them. It tells nothing of their content: that a
//! file keeps what was synced is trusted here, and no clause says it.
ghost use Rattle.std.specs.Prelude.{◌≡◌, ◌≤◌, length, IsTrue, IfOk, OnOk, OnErr, IsOk, IsErr};
ghost use Rattle.heat_disk.specs.Halves.{part, beside};
ghost use Rattle.heat_disk.specs.Shown.{HasRoom, IsLeft, IsAtLeast, Spends, SameContent};
ghost use Rattle.heat_disk.specs.Calls.{Measures, Reads, Writes, Cuts, Syncs};
ghost use Rattle.heat_disk.specs.Causes.{HasCause};
ghost use Rattle.heat_disk.specs.Memory.{no_room};
ghost use Rattle.heat_disk.specs.Files.{files_of, files_shown, file_faults, Reaches, SyncsFile, Widens};

use crate::disk::{Disk, DiskFailed};
use crate::half::Half;
use crate::opened::{Opened, Purpose, Way, way_to};
use heat_value::Text;
use std::alloc::AllocError;
use std::io;

/// Two files as a disk. Room is always made, also on a half that is lost.
pub struct FileDisk {
    first: Opened,
    second: Opened,
    faults: u64,
}

impl Drop for FileDisk {
    fn drop(self) {
        let FileDisk {
            first: _,
            second: _,
            faults: _,
        } = self;
    }
}

impl FileDisk {
    /// First is the file at the path, and Second the one at the path with `.2` behind it. A file that
    /// is missing is made, and the folder of each is synced. One that can't be reached makes each call
    /// on it fail.
    pub fn at(rt: &HostRuntime, path: &Text) -> FileDisk
        ensures room { (files_shown result).room ≡ (no_room, no_room) }
        ensures faults { file_faults result ≡ 0 }
    {
        opened_for(rt, Purpose::Use, path.as_str())
    }

    /// The same files to be looked at alone. Nothing is made, and no right to write is needed: a file
    /// that isn't there is an empty half. A write or a cut fails.
    pub fn look_at(rt: &HostRuntime, path: &Text) -> FileDisk
        ensures room { (files_shown result).room ≡ (no_room, no_room) }
        ensures faults { file_faults result ≡ 0 }
    {
        opened_for(rt, Purpose::Look, path.as_str())
    }

    /// How many of its calls have failed.
    pub fn faults(&self) -> u64
        ensures { result ≡ file_faults self.now }
    {
        self.faults
    }

    // The file that is this half.
    fn opened(&self, half: Half) -> &Opened
        ensures { result.now ≡ part half (files_of self.now) }
    {
        match half {
            Half::First => &self.first,
            Half::Second => &self.second,
        }
    }
}

// The disk of a path's two files, for this purpose.
fn opened_for(rt: &HostRuntime, purpose: Purpose, path: &str) -> FileDisk
    ensures room { (files_shown result).room ≡ (no_room, no_room) }
    ensures faults { file_faults result ≡ 0 }
{
    FileDisk {
        first: Opened::new(way_to(rt, purpose, path)),
        second: Opened::new(way_to_second(rt, purpose, path)),
        faults: 0,
    }
}

// How Second is reached: at the path with `.2` behind it.
fn way_to_second(rt: &HostRuntime, purpose: Purpose, path: &str) -> Way {
    match format!(in rt.alloc(); "{path}.2") {
        Ok(name) => way_to(rt, purpose, name.as_str()),
        Err(_) => Way::Lost,
    }
}

// Counts a failure.
fn note<T: Drop>(faults: &mut u64, outcome: io::Result<T>) -> Result<T, DiskFailed>
    ensures same { IfOk result (λ value. outcome ≡ Ok value) }
    ensures err { IsErr outcome → IsErr result }
    ensures failed { IsErr result → IsErr outcome }
    ensures cause { HasCause faults.old faults.new result }
{
    match outcome {
        Ok(value) => Ok(value),
        Err(_) => {
            *faults = faults.saturating_add(1);
            Err(DiskFailed)
        }
    }
}

impl Disk for FileDisk {
    ghost use Rattle.std.specs.Prelude.{ℕ};
    ghost use Rattle.heat_disk.specs.Files.{files_shown, file_faults};

    ghost shown = { files_shown };

    ghost faults = { file_faults };

    ghost use Rattle.std.proofs.Common.{rules};

    ghost lawful = { λ disk tells. Prim.search rules };

    fn len(&mut self, half: Half) -> Result<u64, DiskFailed>
        ensures reaches { Reaches half result self.old self.new }
        ensures content { IsTrue (files_shown self.old).tells →
            Measures half result (files_shown self.old) (files_shown self.new) }
        ensures tells { (files_shown self.new).tells ≡ (files_shown self.old).tells }
        ensures room { Spends half 0 0 (files_shown self.old) (files_shown self.new) }
        ensures cause { HasCause (file_faults self.old) (file_faults self.new) result }
    {
        let outcome = self.opened(half).size();
        note(&mut self.faults, outcome)
    }

    fn read_at(&mut self, half: Half, at: u64, buf: &mut [u8]) -> Result<usize, DiskFailed>
        ensures reaches { Reaches half result self.old self.new }
        ensures count { IfOk result (λ n. n ≤ length buf.old) }
        ensures content { IsTrue (files_shown self.old).tells →
            Reads half at buf.old buf.new result (files_shown self.old) (files_shown self.new) }
        ensures tells { (files_shown self.new).tells ≡ (files_shown self.old).tells }
        ensures room { Spends half 0 0 (files_shown self.old) (files_shown self.new) }
        ensures cause { HasCause (file_faults self.old) (file_faults self.new) result }
    {
        let outcome = self.opened(half).read_at(at, buf);
        note(&mut self.faults, outcome)
    }

    fn write_at(&mut self, half: Half, at: u64, bytes: &[u8]) -> Result<(), DiskFailed>
        requires at { IsTrue (files_shown self.old).tells →
            at ≤ length (part half (files_shown self.old).seen) }
        requires room { HasRoom (part half (files_shown self.old).room) at (length bytes.now) }
        ensures reaches { Reaches half result self.old self.new }
        ensures content { IsTrue (files_shown self.old).tells →
            Writes half at bytes.now result (files_shown self.old) (files_shown self.new) }
        ensures tells { (files_shown self.new).tells ≡ (files_shown self.old).tells }
        ensures room { Spends half 1 (length bytes.now)
            (files_shown self.old) (files_shown self.new) }
        ensures cause { HasCause (file_faults self.old) (file_faults self.new) result }
    {
        let outcome = self.opened(half).write_at(at, bytes);
        note(&mut self.faults, outcome)
    }

    fn cut(&mut self, half: Half, len: u64) -> Result<(), DiskFailed>
        requires len { IsTrue (files_shown self.old).tells →
            len ≤ length (part half (files_shown self.old).seen) }
        requires room { HasRoom (part half (files_shown self.old).room) 0 0 }
        ensures reaches { Reaches half result self.old self.new }
        ensures content { IsTrue (files_shown self.old).tells →
            Cuts half len result (files_shown self.old) (files_shown self.new) }
        ensures tells { (files_shown self.new).tells ≡ (files_shown self.old).tells }
        ensures room { Spends half 1 0 (files_shown self.old) (files_shown self.new) }
        ensures cause { HasCause (file_faults self.old) (file_faults self.new) result }
    {
        let outcome = self.opened(half).cut(len);
        note(&mut self.faults, outcome)
    }

    fn sync(&mut self, half: Half) -> Result<(), DiskFailed>
        requires room { HasRoom (part half (files_shown self.old).room) 0 0 }
        ensures reaches { SyncsFile half result self.old self.new }
        ensures content { IsTrue (files_shown self.old).tells →
            Syncs half result (files_shown self.old) (files_shown self.new) }
        ensures tells { (files_shown self.new).tells ≡ (files_shown self.old).tells }
        ensures room { Spends half 1 0 (files_shown self.old) (files_shown self.new) }
        ensures cause { HasCause (file_faults self.old) (file_faults self.new) result }
    {
        let outcome = match half {
            Half::First => self.first.sync(),
            Half::Second => self.second.sync(),
        };
        note(&mut self.faults, outcome)
    }

    fn room(&mut self, half: Half, end: u64, bytes: u64, calls: u64) -> Result<(), AllocError>
        ensures ok { IsOk result }
        ensures exact { Widens half end bytes calls self.old self.new }
        ensures made { OnOk result
            (IsAtLeast end bytes calls (part half (files_shown self.new).room)) }
        ensures kept { IsLeft 0 0 (part half (files_shown self.old).room)
            (part half (files_shown self.new).room) }
        ensures other { beside half (files_shown self.new).room
            ≡ beside half (files_shown self.old).room }
        ensures memory { OnErr result ((files_shown self.new).room
            ≡ (files_shown self.old).room) }
        ensures content { IsTrue (files_shown self.old).tells →
            SameContent (files_shown self.old) (files_shown self.new) }
        ensures tells { (files_shown self.new).tells ≡ (files_shown self.old).tells }
        ensures faults { file_faults self.new ≡ file_faults self.old }
    {
        match half {
            Half::First => self.first.widen(end, bytes, calls),
            Half::Second => self.second.widen(end, bytes, calls),
        }
        Ok(())
    }
}
