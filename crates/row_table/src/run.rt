//! Runs of calls over a table of rows.
ghost use Rattle.std.specs.Prelude.{◌≡◌, ◌↔◌, None, Some, IfOk, IsTrue, IsSome};
ghost use Rattle.row_table.specs.declared.row.Row.{Row};
ghost use Rattle.row_table.specs.Rows.{row_at};
ghost use Rattle.row_table.specs.declared.ops.RowAnswer.TheVariants.{Got};
ghost use Rattle.row_table.specs.Locks.{IsLockable};
ghost use Rattle.row_table.specs.Runs.{Does, Holds, Runs, TellsHead, Wrote};

use crate::Row;
use crate::ops::{RowAnswer, RowOp};
use crate::rows::Rows;
use heat_plan::{EngineNo, RowNo, Seq, TryCopy, WORN};
use std::alloc::{AllocError, Global};

/// Makes the calls in order, each where its condition holds, and answers what each gives.
pub fn run_rows<R: Rows>(
    alloc: Global,
    rows: &mut R,
    ops: &[RowOp],
) -> Result<Seq<RowAnswer>, AllocError>
    ensures { IfOk result (λ answers. Runs ops.now (R.content rows.old).items answers (R.content rows.new).items) }
{
    let mut answers = Seq::new(alloc);
    for op in ops {
        let answer = answer_of(alloc, rows, op)?;
        answers.push(answer)?;
    }
    Ok(answers)
}

// Makes one call.
fn answer_of<R: Rows>(alloc: Global, rows: &mut R, op: &RowOp) -> Result<RowAnswer, AllocError>
    ensures { IfOk result (λ answer. Does op.now (R.content rows.old).items answer (R.content rows.new).items) }
{
    match op {
        RowOp::Get(no) => got(rows, *no),
        RowOp::Current(stack, name) => Ok(RowAnswer::Current(rows.current(stack, name))),
        RowOp::Head(no) => Ok(head(rows, *no)),
        RowOp::OfStack(stack) => Ok(RowAnswer::Rows(rows.of_stack(alloc, stack)?)),
        RowOp::Put(row) => {
            rows.put(row.copy()?)?;
            Ok(RowAnswer::Done)
        }
        RowOp::Set(row) => Ok(written(rows, row.copy()?)),
        RowOp::Purge(no) => {
            rows.purge(*no);
            Ok(RowAnswer::Done)
        }
        RowOp::Lock(no, engine) => Ok(held(rows, *no, Some(*engine))),
        RowOp::Unlock(no) => Ok(held(rows, *no, None)),
        RowOp::Reserve(more) => {
            rows.reserve(*more)?;
            Ok(RowAnswer::Done)
        }
    }
}

// The row of a number, copied.
fn got<R: Rows>(rows: &R, no: RowNo) -> Result<RowAnswer, AllocError>
    ensures { IfOk result (λ answer. answer ≡ Got (row_at (R.content rows.now).items no)) }
{
    match rows.get(no) {
        Some(row) => Ok(RowAnswer::Got(Some(row.copy()?))),
        None => Ok(RowAnswer::Got(None)),
    }
}

// The end of a row's chain of replacements, if the row stands.
fn head<R: Rows>(rows: &R, no: RowNo) -> RowAnswer
    ensures { TellsHead no (R.content rows.now).items result (R.content rows.now).items }
{
    if rows.get(no).is_none() {
        return RowAnswer::Barred;
    }
    RowAnswer::Head(rows.head(no))
}

// Writes a row over the one of its number, if one stands.
fn written<R: Rows>(rows: &mut R, row: Row) -> RowAnswer
    ensures { Wrote row (R.content rows.old).items result (R.content rows.new).items }
{
    if rows.get(row.no).is_none() {
        return RowAnswer::Barred;
    }
    rows.set(row);
    RowAnswer::Done
}

// Gives a row to this engine, or to none, where its key can count on.
fn held<R: Rows>(rows: &mut R, no: RowNo, engine: Option<EngineNo>) -> RowAnswer
    ensures { Holds no engine (R.content rows.old).items result (R.content rows.new).items }
{
    if !can_hold(rows, no) {
        return RowAnswer::Barred;
    }
    match engine {
        Some(engine) => rows.lock(no, engine),
        None => rows.unlock(no),
    }
    RowAnswer::Done
}

// Whether a row stands and its key can count on.
fn can_hold<R: Rows>(rows: &R, no: RowNo) -> bool
    ensures { IsTrue result ↔ IsLockable (R.content rows.now).items no }
{
    match rows.get(no) {
        Some(row) => row.key < WORN - 1,
        None => false,
    }
}
