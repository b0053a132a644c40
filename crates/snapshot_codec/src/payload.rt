//! The payload of a state's snapshot.
ghost use Rattle.std.specs.Prelude.{◌≡◌, ◌<◌, ◌≤◌, ◌-◌, ◌^◌, length, min};
ghost use Rattle.row_codec.specs.Changes.{spelled, IsSpelling};
ghost use Rattle.state_images.specs.Images.{HasKeepableRows, IsMade};
ghost use Rattle.state_images.specs.Snapshots.{snapshot};

use crate::puts::put_snapshot;
use core_state::State;
use plan_codec::Sheet;
use std::alloc::Global;

/// How many bytes the spelling of the state's snapshot has; 2^64 - 1 where it has more. It takes no memory.
pub fn size(alloc: Global, s: &State) -> usize
    requires { IsMade s.now.state }
    ensures { result ≡ min (length (spelled (snapshot s.now.state))) (2 ^ 64 - 1) }
{
    let mut sheet = Sheet::new(alloc);
    put_snapshot(s, &mut sheet);
    sheet.count()
}

/// Writes the spelling of the state's snapshot on the sheet, in the place of what stood there. It takes no
/// memory.
pub fn fill(s: &State, sheet: &mut Sheet)
    requires made { IsMade s.now.state }
    requires room { length (spelled (snapshot s.now.state)) ≤ sheet.old.room }
    ensures bytes { sheet.new.kept ≡ spelled (snapshot s.now.state) }
    ensures room { sheet.new.room ≡ sheet.old.room }
    ensures proper { HasKeepableRows s.now.state →
        IsSpelling sheet.new.kept (snapshot s.now.state) }
{
    sheet.clear();
    put_snapshot(s, sheet);
    // what is kept is in memory, so its changes are fewer than 2^64, and their number is the one that was put
    is_in_memory(sheet);
}

// The bytes that a sheet keeps are fewer than 2^64.
fn is_in_memory(sheet: &Sheet)
    ensures { length sheet.now.kept < 2 ^ 64 }
{
    let _kept = sheet.as_slice().len();
}
