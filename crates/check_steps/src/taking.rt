//! Take: the lowest letter goes, and where it has work that no live engine does, a job begins with
//! it.
ghost use Rattle.std.specs.Prelude.{◌≡◌, ◌++◌, IfOk, IfErr, IfSome};
ghost use Rattle.core_state.specs.declared.entry.Actor.TheVariants.{Engine};
ghost use Rattle.step_relation.specs.Given.{Nothing};
ghost use Rattle.step_relation.specs.Nexts.{TakesNext};
ghost use Rattle.step_relation.specs.Writes.{lock_writes, mail_entry, rows_entry};
ghost use Rattle.step_parts.specs.Rooms.{MayRise};
ghost use Rattle.step_parts.specs.Turns.{IsTurn, IsTurnRefusal};
ghost use Rattle.check_steps.specs.Makes.{Makes, MakesNone};
ghost use Rattle.check_steps.specs.Takings.{dropped_changes, dropped_entries, its_row};
ghost use Rattle.check_steps.specs.Takings.{held_changes, held_entries};
ghost use Rattle.check_steps.specs.Takings.{stolen_changes, stolen_entries};

use crate::making::make;
use core_state::{Actor, Batch, Change, Entry, Letter, Made, MailWrite, Stage, State};
use heat_plan::{EngineNo, Refusal};
use heat_value::Seq;
use std::alloc::{AllocError, Global};
use step_parts::{
    job_of, lock, lock_writes, mail_entry, may_all_rise, one, rows_entry, seq_of_one, seq_of_two,
    three, two, with_last,
};
use step_reads::{Meant, holder, is_done, is_live, meaning};

/// The taking of the lowest letter, at an update or a clean-up node.
pub fn take(alloc: Global, s: &State, e: EngineNo, letter: &Letter) -> Result<Made, Refusal>
    requires { TakesNext s.now.state e letter.now }
    ensures made { IfOk result (IsTurn s.now.state e Nothing) }
    ensures cause { IfErr result (IsTurnRefusal s.now.state e Nothing) }
{
    let Some(meant) = meaning(s, letter) else {
        return drop_letter(alloc, e, letter);
    };
    if is_done(meant.graph, letter.node) {
        return drop_letter(alloc, e, letter);
    }
    match holder(s, meant.target) {
        None => hold(alloc, e, letter, &meant),
        Some(job) => {
            if is_live(s, job.engine) {
                return drop_letter(alloc, e, letter);
            }
            steal(alloc, e, letter, &meant, job.engine)
        }
    }
}

/// The letter goes, and nobody works for it.
pub(crate) fn drop_letter(alloc: Global, e: EngineNo, letter: &Letter) -> Result<Made, Refusal>
    ensures made { IfOk result (Makes (dropped_changes letter.now) (dropped_entries e letter.now)) }
    ensures cause { IfErr result (MakesNone (dropped_changes letter.now)) }
{
    let writes = seq_of_one(alloc, MailWrite::Dropped(letter.no))?;
    let entries = mail_entry(alloc, Actor::Engine(e), writes)?;
    let changes = one(alloc, Change::Drop(letter.no))?;
    make(alloc, changes, entries)
}

/// The row is locked, if it stands, and a job begins.
pub(crate) fn hold(
    alloc: Global,
    e: EngineNo,
    letter: &Letter,
    meant: &Meant<'_>,
) -> Result<Made, Refusal>
    ensures made { IfOk result (Makes
        (held_changes e letter.now meant.now.target (its_row meant.now))
        (held_entries e letter.now meant.now.target (its_row meant.now))) }
    ensures cause { IfErr result (MakesNone
        (held_changes e letter.now meant.now.target (its_row meant.now))) }
{
    if !may_all_rise(meant.row) {
        return Err(Refusal::Worn);
    }
    let job = job_of(e, letter, meant.target, Stage::Taken)?;
    let writes = seq_of_two(alloc, MailWrite::Dropped(letter.no), MailWrite::Held(job))?;
    let entries = lock_entries(alloc, e, meant, writes)?;
    let job = job_of(e, letter, meant.target, Stage::Taken)?;
    let changes = two(alloc, Change::Drop(letter.no), Change::PutJob(job))?;
    let changes = lock(alloc, meant.row, e, changes)?;
    make(alloc, changes, entries)
}

/// The same, and the job that a stopped engine had with the row ends.
pub(crate) fn steal(
    alloc: Global,
    e: EngineNo,
    letter: &Letter,
    meant: &Meant<'_>,
    lost: EngineNo,
) -> Result<Made, Refusal>
    ensures made { IfOk result (Makes
        (stolen_changes e letter.now meant.now.target (its_row meant.now) lost)
        (stolen_entries e letter.now meant.now.target (its_row meant.now) lost)) }
    ensures cause { IfErr result (MakesNone
        (stolen_changes e letter.now meant.now.target (its_row meant.now) lost)) }
{
    if !may_all_rise(meant.row) {
        return Err(Refusal::Worn);
    }
    let job = job_of(e, letter, meant.target, Stage::Taken)?;
    let mut writes = seq_of_two(alloc, MailWrite::Dropped(letter.no), MailWrite::Ended(lost))?;
    writes.push(MailWrite::Held(job))?;
    let entries = lock_entries(alloc, e, meant, writes)?;
    let job = job_of(e, letter, meant.target, Stage::Taken)?;
    let changes = three(
        alloc,
        Change::Drop(letter.no),
        Change::EndJob(lost),
        Change::PutJob(job),
    )?;
    let changes = lock(alloc, meant.row, e, changes)?;
    make(alloc, changes, entries)
}

// What is told of the row, and of letters and jobs.
fn lock_entries(
    alloc: Global,
    e: EngineNo,
    meant: &Meant<'_>,
    writes: Seq<MailWrite>,
) -> Result<Batch<Entry>, AllocError>
    requires { IfSome meant.now.row (λ r. MayRise r.now) }
    ensures { IfOk result (λ entries. entries ≡ rows_entry (Engine e)
        (lock_writes (its_row meant.now) e) ++ mail_entry (Engine e) writes) }
{
    let by = Actor::Engine(e);
    let rows = rows_entry(alloc, by, lock_writes(alloc, meant.row, e)?)?;
    with_last(rows, mail_entry(alloc, by, writes)?)
}
