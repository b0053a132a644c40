//! The entries of rows, of letters and jobs, and of calls.
ghost use Rattle.std.specs.Prelude.{◌≡◌, IfOk};
ghost use Rattle.step_relation.specs.Writes.{call_entry, mail_entry, rows_entry};

use crate::lists::one;
use crate::rows::token_of;
use core_state::{Actor, Batch, Entry, MailWrite, Row, RowWrite, What};
use heat_plan::{Answered, EngineNo, Request};
use heat_value::{Seq, TryCopy};
use std::alloc::{AllocError, Global};

/// What was written to rows: no entry where nothing was.
pub fn rows_entry(
    alloc: Global,
    by: Actor,
    writes: Seq<RowWrite>,
) -> Result<Batch<Entry>, AllocError>
    ensures { IfOk result (λ entries. entries ≡ rows_entry by writes) }
{
    match writes.as_slice() {
        [] => Ok(Batch::new(alloc)),
        [_, ..] => one(
            alloc,
            Entry {
                by,
                what: What::Rows { writes },
            },
        ),
    }
}

/// What was written to letters and jobs: no entry where nothing was.
pub fn mail_entry(
    alloc: Global,
    by: Actor,
    writes: Seq<MailWrite>,
) -> Result<Batch<Entry>, AllocError>
    ensures { IfOk result (λ entries. entries ≡ mail_entry by writes) }
{
    match writes.as_slice() {
        [] => Ok(Batch::new(alloc)),
        [_, ..] => one(
            alloc,
            Entry {
                by,
                what: What::Mail { writes },
            },
        ),
    }
}

/// The provider was asked under the row's token, and answered.
pub fn call_entry(
    e: EngineNo,
    row: &Row,
    request: Request,
    answer: &Answered,
) -> Result<Entry, AllocError>
    ensures { IfOk result (λ x. x ≡ call_entry e row.now request answer.now) }
{
    let answer = answer.copy()?;
    Ok(Entry {
        by: Actor::Engine(e),
        what: What::Call {
            token: token_of(row)?,
            request,
            answer,
        },
    })
}
