//! What each case of the begin at a clean-up node makes.
ghost use Rattle.std.specs.Prelude.{◌≡◌, ◌∷◌, IfOk, IfErr};
ghost use Rattle.mail_table.specs.declared.mail.Stage.TheVariants.{Asking, Ending};
ghost use Rattle.core_state.specs.declared.entry.Actor.TheVariants.{Engine};
ghost use Rattle.core_state.specs.declared.entry.What.TheVariants as what;
ghost use Rattle.step_relation.specs.Begins.{begun_changes, begun_entries, left_changes, left_entries};
ghost use Rattle.step_relation.specs.Begins.{onward_changes, onward_entries};
ghost use Rattle.step_relation.specs.Cleanups.{purged_changes, purged_entries, retained_changes, retained_entries};
ghost use Rattle.step_relation.specs.Rows.{deleted_row, token_of};
ghost use Rattle.step_relation.specs.Writes.{entry_of};
ghost use Rattle.cleanup_steps.specs.Makes.{IsRefused, Makes};

use core_state::{Actor, Batch, Change, Entry, Job, Made, Row, Stage, What};
use heat_plan::{EngineNo, Refusal, TravNo};
use std::alloc::{AllocError, Global};
use step_parts::{
    begun_changes, begun_entries, deleted_row, left_changes, left_entries, made_within, may_rise,
    onward_changes, onward_entries, purged_changes, purged_entries, token_of, with_first,
};

/// There is nothing to do: the job goes on to its end.
pub fn pass(alloc: Global, e: EngineNo, job: &Job) -> Result<Made, Refusal>
    ensures made { IfOk result (Makes (onward_changes job.now Ending)
        (onward_entries e job.now Ending)) }
    ensures cause { IfErr result (IsRefused (onward_changes job.now Ending)) }
{
    let changes = onward_changes(alloc, job, Stage::Ending)?;
    let entries = onward_entries(alloc, e, job, Stage::Ending)?;
    made_within(alloc, changes, entries)
}

/// The row goes from the table.
pub fn purge(alloc: Global, e: EngineNo, job: &Job, row: &Row) -> Result<Made, Refusal>
    ensures made { IfOk result (Makes (purged_changes job.now row.now)
        (purged_entries e job.now row.now)) }
    ensures cause { IfErr result (IsRefused (purged_changes job.now row.now)) }
{
    let changes = purged_changes(alloc, job, row)?;
    let entries = purged_entries(alloc, e, job, row)?;
    made_within(alloc, changes, entries)
}

/// The row is unlocked, and the job ends.
pub fn leave(alloc: Global, e: EngineNo, row: &Row) -> Result<Made, Refusal>
    ensures made { IfOk result (Makes (left_changes e row.now) (left_entries e row.now)) }
    ensures cause { IfErr result (IsRefused (left_changes e row.now)) }
{
    if !may_rise(row) {
        return Err(Refusal::Worn);
    }
    let changes = left_changes(alloc, e, row)?;
    let entries = left_entries(alloc, e, row)?;
    made_within(alloc, changes, entries)
}

/// The engine gives up what the row asked for, and the row goes.
pub fn give_up(alloc: Global, e: EngineNo, job: &Job, row: &Row) -> Result<Made, Refusal>
    ensures made { IfOk result (Makes (retained_changes job.now row.now)
        (retained_entries e job.now row.now)) }
    ensures cause { IfErr result (IsRefused (retained_changes job.now row.now)) }
{
    let changes = retained_changes(alloc, job, row)?;
    let entries = retained_entries(alloc, e, job, row)?;
    made_within(alloc, changes, entries)
}

// The token is released before the row goes.
fn retained_changes(alloc: Global, job: &Job, row: &Row) -> Result<Batch<Change>, AllocError>
    ensures { IfOk result (λ changes. changes ≡ retained_changes job.now row.now) }
{
    let purged = purged_changes(alloc, job, row)?;
    with_first(alloc, Change::Release(token_of(row)?), purged)
}

// What is told of both.
fn retained_entries(
    alloc: Global,
    e: EngineNo,
    job: &Job,
    row: &Row,
) -> Result<Batch<Entry>, AllocError>
    ensures { IfOk result (λ entries. entries ≡ retained_entries e job.now row.now) }
{
    let purged = purged_entries(alloc, e, job, row)?;
    with_first(alloc, release_entry(e, row)?, purged)
}

// The row's token was released.
fn release_entry(e: EngineNo, row: &Row) -> Result<Entry, AllocError>
    ensures { IfOk result (λ x. x ≡ entry_of (Engine e) (what.Release (token_of row.now))) }
{
    Ok(Entry {
        by: Actor::Engine(e),
        what: What::Release {
            token: token_of(row)?,
        },
    })
}

/// The row is to be deleted for this traversal, and the job asks next.
pub fn delete(
    alloc: Global,
    e: EngineNo,
    job: &Job,
    row: &Row,
    trav: TravNo,
) -> Result<Made, Refusal>
    ensures made { IfOk result (Makes (begun_changes job.now Asking (deleted_row row.now trav))
        (begun_entries e job.now Asking (deleted_row row.now trav))) }
    ensures cause { IfErr result (IsRefused
        (begun_changes job.now Asking (deleted_row row.now trav))) }
{
    let changes = begun_changes(alloc, job, Stage::Asking, deleted_row(row, trav)?)?;
    let entries = begun_entries(alloc, e, job, Stage::Asking, deleted_row(row, trav)?)?;
    made_within(alloc, changes, entries)
}
