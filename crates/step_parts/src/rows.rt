//! The forms that a step gives to a row that has or had an engine: each a copy with a few parts changed.
ghost use Rattle.std.specs.Prelude.{◌≡◌, IfOk};
ghost use Rattle.step_relation.specs.Rows.{failed_row, locked, replaced, token_of, unlocked};
ghost use Rattle.step_parts.specs.Rooms.{MayRise};

use core_state::Row;
use heat_plan::{EngineNo, RowNo, Status, Token};
use heat_value::TryCopy;
use std::alloc::AllocError;

/// The token under which the row is asked for.
pub fn token_of(row: &Row) -> Result<Token, AllocError>
    ensures { IfOk result (λ t. t ≡ token_of row.now) }
{
    Ok(Token {
        stack: row.stack.copy()?,
        name: row.name.copy()?,
        row: row.no,
    })
}

/// The row, locked for an engine.
pub fn locked(e: EngineNo, row: &Row) -> Result<Row, AllocError>
    requires { MayRise row.now }
    ensures { IfOk result (λ r. r ≡ locked e row.now) }
{
    let mut row = row.copy()?;
    row.engine = Some(e);
    row.key += 1;
    Ok(row)
}

/// The row, unlocked.
pub fn unlocked(row: &Row) -> Result<Row, AllocError>
    requires { MayRise row.now }
    ensures { IfOk result (λ r. r ≡ unlocked row.now) }
{
    let mut row = row.copy()?;
    row.engine = None;
    row.key += 1;
    Ok(row)
}

/// The row, failed and unlocked.
pub fn failed_row(row: &Row) -> Result<Row, AllocError>
    requires { MayRise row.now }
    ensures { IfOk result (λ r. r ≡ failed_row row.now) }
{
    let mut row = unlocked(row)?;
    row.status = Status::Failed;
    Ok(row)
}

/// The row, unlocked, with the row of this number in its place.
pub fn replaced(number: RowNo, row: &Row) -> Result<Row, AllocError>
    requires { MayRise row.now }
    ensures { IfOk result (λ r. r ≡ replaced number row.now) }
{
    let mut row = unlocked(row)?;
    row.replaced_by = Some(number);
    Ok(row)
}
