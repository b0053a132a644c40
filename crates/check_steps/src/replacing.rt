//! A row that can't be gone on with: another row of the name takes its place.
ghost use Rattle.std.specs.Prelude.{◌≡◌, ◌≤◌, ◌+◌, ◌^◌, IfOk, IfErr};
ghost use Rattle.step_relation.specs.Begins.{past_row};
ghost use Rattle.step_parts.specs.Rooms.{MayRise};
ghost use Rattle.check_steps.specs.Makes.{Makes, MakesNone};
ghost use Rattle.check_steps.specs.Writes.{succeeded_changes, succeeded_entries};

use crate::begin_found::Found;
use crate::making::make;
use core_state::{Actor, Batch, Change, Entry, Made, MailWrite, Numbers, RowWrite, State};
use heat_plan::{EngineNo, Properties, Refusal, RowNo};
use std::alloc::{AllocError, Global};
use step_parts::{
    has_room, mail_entry, may_rise, moved_job, replaced, replacement, rows_entry, seq_of_one,
    seq_of_two, three, with_first, with_last,
};

/// A row of the next number takes the place of the job's row, which is unlocked, and the job moves
/// to it.
pub(crate) fn replace(
    alloc: Global,
    s: &State,
    e: EngineNo,
    found: &Found<'_>,
    props: &Properties,
) -> Result<Made, Refusal>
    ensures made { IfOk result (Makes (succeeded_changes s.now.state e found.now props.now)
        (succeeded_entries s.now.state e found.now props.now)) }
    ensures cause { IfErr result (MakesNone (succeeded_changes s.now.state e found.now props.now)) }
{
    let next = s.next().row;
    if !has_room(next, 1) {
        return Err(Refusal::Worn);
    }
    if !may_rise(found.row) {
        return Err(Refusal::Worn);
    }
    let number = RowNo::new(next.get()).unwrap();
    let changes = changes_of(alloc, s, e, number, found, props)?;
    let entries = entries_of(alloc, s, e, number, found, props)?;
    make(alloc, changes, entries)
}

// The numbers behind it, both rows, and the job.
fn changes_of(
    alloc: Global,
    s: &State,
    e: EngineNo,
    number: RowNo,
    found: &Found<'_>,
    props: &Properties,
) -> Result<Batch<Change>, AllocError>
    requires number { number ≡ s.now.state.next.row }
    requires key { MayRise found.now.row.now }
    ensures { IfOk result (λ cs. cs ≡ succeeded_changes s.now.state e found.now props.now) }
{
    let row = replacement(
        number,
        e,
        found.stack,
        found.item,
        props,
        &found.required,
        found.row,
    )?;
    let old = replaced(number, found.row)?;
    let job = moved_job(number, found.job)?;
    let changes = three(
        alloc,
        Change::PutRow(row),
        Change::PutRow(old),
        Change::PutJob(job),
    )?;
    with_first(alloc, Change::Numbers(past_row(s.next())), changes)
}

// The next numbers behind one row.
fn past_row(next: &Numbers) -> Numbers
    requires { next.now.row + 1 ≤ 2 ^ 62 }
    ensures { result ≡ past_row next.now }
{
    let mut past = *next;
    past.row = next.row.after(1);
    past
}

// What is told of the rows and the job.
fn entries_of(
    alloc: Global,
    s: &State,
    e: EngineNo,
    number: RowNo,
    found: &Found<'_>,
    props: &Properties,
) -> Result<Batch<Entry>, AllocError>
    requires number { number ≡ s.now.state.next.row }
    requires key { MayRise found.now.row.now }
    ensures { IfOk result (λ es. es ≡ succeeded_entries s.now.state e found.now props.now) }
{
    let by = Actor::Engine(e);
    let row = replacement(
        number,
        e,
        found.stack,
        found.item,
        props,
        &found.required,
        found.row,
    )?;
    let old = replaced(number, found.row)?;
    let writes = seq_of_two(alloc, RowWrite::Set(row), RowWrite::Set(old))?;
    let rows = rows_entry(alloc, by, writes)?;
    let held = seq_of_one(alloc, MailWrite::Held(moved_job(number, found.job)?))?;
    with_last(rows, mail_entry(alloc, by, held)?)
}
