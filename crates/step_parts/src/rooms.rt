//! Whether numbers can still be drawn and keys raised: looked at before a step makes anything of them.
ghost use Rattle.std.specs.Prelude.{◌≤◌, ◌+◌, ◌^◌, ◌↔◌, IsTrue, IfSome};
ghost use Rattle.step_parts.specs.Rooms.{MayRise};

use core_state::{Next, Row};
use heat_plan::WORN;

/// Whether so many more of a sort can be drawn.
pub fn has_room(next: Next, more: usize) -> bool
    ensures { IsTrue result ↔ (next + more ≤ 2 ^ 62) }
{
    more as u64 <= WORN - next.get()
}

/// Whether the row's key can be raised.
pub fn may_rise(row: &Row) -> bool
    ensures { IsTrue result ↔ MayRise row.now }
{
    row.key < WORN - 1
}

/// Whether the key of a row can be raised, if it stands.
pub fn may_all_rise(row: Option<&Row>) -> bool
    ensures { IsTrue result ↔ IfSome row.entry (λ r. MayRise r.now) }
{
    match row {
        None => true,
        Some(row) => may_rise(row),
    }
}
