//! The changes and entries of a failure, but for the rollback that may follow.
ghost use Rattle.std.specs.Prelude.{◌≡◌, ◌≤◌, ◌+◌, ◌^◌, IfOk, length, option_map};
ghost use Rattle.step_relation.specs.Asks.{failed_changes, failed_entries};
ghost use Rattle.command_steps.specs.Rooms.{MayRise};

use command_steps::{
    cause_at, draw_letters, ended_and_sent, failed_mark, failed_row, mail_entry, mark_failed,
    rows_entry, sends, seq_of_one, two, with_last,
};
use core_state::{Actor, Batch, Change, Entry, Letter, Row, RowWrite, Stack, State, Why};
use heat_plan::EngineNo;
use std::alloc::{AllocError, Global};

/// The row is failed and unlocked, the job ends, the letters are sent, and the stack is marked, if it
/// is to be.
pub fn failed_changes(
    alloc: Global,
    s: &State,
    e: EngineNo,
    row: &Row,
    letters: &[Letter],
    failed: Option<&Stack>,
) -> Result<Batch<Change>, AllocError>
    requires key { MayRise row.now }
    requires room { s.now.state.next.letter + length letters.now ≤ 2 ^ 62 }
    ensures { IfOk result (λ changes. changes ≡
        failed_changes s.now.state e row.now letters.now (option_map (λ st. st.now) failed.entry)) }
{
    let ends = two(alloc, Change::PutRow(failed_row(row)?), Change::EndJob(e))?;
    let behind = with_last(sends(alloc, letters)?, mark_failed(alloc, failed)?)?;
    draw_letters(alloc, s.next(), letters, with_last(ends, behind)?)
}

/// What is told of it.
pub fn failed_entries(
    alloc: Global,
    e: EngineNo,
    row: &Row,
    letters: &[Letter],
    failed: Option<&Stack>,
    why: Why,
) -> Result<Batch<Entry>, AllocError>
    requires { MayRise row.now }
    ensures { IfOk result (λ entries. entries ≡
        failed_entries e row.now letters.now (option_map (λ st. st.now) failed.entry) why) }
{
    let by = Actor::Engine(e);
    let writes = seq_of_one(alloc, RowWrite::Set(failed_row(row)?))?;
    let rows = rows_entry(alloc, by, writes)?;
    let mail = mail_entry(alloc, by, ended_and_sent(alloc, e, letters)?)?;
    let mark = failed_mark(alloc, by, failed, cause_at(row, why)?)?;
    with_last(rows, with_last(mail, mark)?)
}
