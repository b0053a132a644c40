//! The locking and unlocking of a row, if it stands.
ghost use Rattle.std.specs.Prelude.{◌≡◌, ◌∷◌, IfOk, IfSome, option_map};
ghost use Rattle.step_relation.specs.Writes.{lock, lock_writes, unlock, unlock_writes};
ghost use Rattle.step_parts.specs.Rooms.{MayRise};

use crate::lists::{seq_of_one, with_first};
use crate::rows::{locked, unlocked};
use core_state::{Batch, Change, Row, RowWrite};
use heat_plan::EngineNo;
use heat_value::Seq;
use std::alloc::{AllocError, Global};

/// The row is locked, if it stands, before the changes `rest`.
pub fn lock(
    alloc: Global,
    row: Option<&Row>,
    e: EngineNo,
    rest: Batch<Change>,
) -> Result<Batch<Change>, AllocError>
    requires { IfSome row (λ r. MayRise r.now) }
    ensures { IfOk result (λ changes. changes ≡ lock (option_map (λ r. r.now) row.entry) e rest) }
{
    match row {
        None => Ok(rest),
        Some(row) => with_first(alloc, Change::PutRow(locked(e, row)?), rest),
    }
}

/// What is told of the locking.
pub fn lock_writes(
    alloc: Global,
    row: Option<&Row>,
    e: EngineNo,
) -> Result<Seq<RowWrite>, AllocError>
    requires { IfSome row (λ r. MayRise r.now) }
    ensures { IfOk result (λ writes. writes ≡ lock_writes (option_map (λ r. r.now) row.entry) e) }
{
    match row {
        None => Ok(Seq::new(alloc)),
        Some(row) => seq_of_one(alloc, RowWrite::Set(locked(e, row)?)),
    }
}

/// The row is unlocked, if it stands, before the changes `rest`.
pub fn unlock(
    alloc: Global,
    row: Option<&Row>,
    rest: Batch<Change>,
) -> Result<Batch<Change>, AllocError>
    requires { IfSome row (λ r. MayRise r.now) }
    ensures { IfOk result (λ changes. changes ≡ unlock (option_map (λ r. r.now) row.entry) rest) }
{
    match row {
        None => Ok(rest),
        Some(row) => with_first(alloc, Change::PutRow(unlocked(row)?), rest),
    }
}

/// What is told of the unlocking.
pub fn unlock_writes(alloc: Global, row: Option<&Row>) -> Result<Seq<RowWrite>, AllocError>
    requires { IfSome row (λ r. MayRise r.now) }
    ensures { IfOk result (λ writes. writes ≡ unlock_writes (option_map (λ r. r.now) row.entry)) }
{
    match row {
        None => Ok(Seq::new(alloc)),
        Some(row) => seq_of_one(alloc, RowWrite::Set(unlocked(row)?)),
    }
}
