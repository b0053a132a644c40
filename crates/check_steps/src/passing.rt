//! What the end of a job changes, and what is told of it.
ghost use Rattle.std.specs.Prelude.{◌≡◌, ◌≢◌, ◌<◌, ◌≤◌, ◌+◌, ◌^◌, [], length, map};
ghost use Rattle.std.specs.Prelude.{IfErr, IfOk, IfSome};
ghost use Rattle.std.specs.Bool.{OnTrue, OnFalse};
ghost use Rattle.core_state.specs.declared.change.Change.TheVariants.{PutPoint};
ghost use Rattle.step_parts.specs.Rooms.{MayRise};
ghost use Rattle.check_steps.specs.Makes.{Makes, MakesNone};
ghost use Rattle.check_steps.specs.Passes.{passed_changes, passed_entries};
ghost use Rattle.check_steps.specs.Passes.{sent_changes, sent_entries};

use crate::finish_found::Passed;
use crate::making::make;
use core_state::{Actor, Batch, Change, Entry, Letter, Made, Next, Point, State};
use heat_plan::{EngineNo, Refusal};
use std::alloc::{AllocError, Global};
use step_parts::{
    draw_letters, ended_and_sent, has_room, letters_to, mail_entry, may_all_rise, rows_entry,
    sends, unlock, unlock_writes, with_first, with_last,
};
use step_reads::points_passed;

/// The row is unlocked, the job ends, the points change and the letters are sent; then the mark, if
/// one is given.
pub(crate) fn pass_on(
    alloc: Global,
    s: &State,
    e: EngineNo,
    passed: &Passed<'_>,
    mark: Batch<Change>,
    told: Batch<Entry>,
) -> Result<Made, Refusal>
    ensures made { IfOk result (Makes (passed_changes s.now.state e passed.now mark)
        (passed_entries s.now.state e passed.now told)) }
    ensures cause { IfErr result (MakesNone (passed_changes s.now.state e passed.now mark)) }
{
    if !can_number(s.next().letter, passed.ready.as_slice()) {
        return Err(Refusal::Worn);
    }
    if !may_all_rise(passed.fresh.row) {
        return Err(Refusal::Worn);
    }
    let letters = letters_to(
        alloc,
        passed.fresh.stack,
        s.next().letter,
        passed.ready.as_slice(),
    )?;
    let changes = changes_of(alloc, s, e, passed, letters.as_slice(), mark)?;
    let entries = entries_of(alloc, e, passed, letters.as_slice(), told)?;
    make(alloc, changes, entries)
}

// Whether letters to these nodes can be numbered.
fn can_number(next: Next, nodes: &[u32]) -> bool
    ensures room { OnTrue result (next + length nodes.now ≤ 2 ^ 62) }
    ensures many { OnFalse result ((nodes.now ≢ []) × (2 ^ 62 < next + length nodes.now)) }
{
    has_room(next, nodes.len())
}

// The changes, with these letters and this mark.
fn changes_of(
    alloc: Global,
    s: &State,
    e: EngineNo,
    passed: &Passed<'_>,
    letters: &[Letter],
    mark: Batch<Change>,
) -> Result<Batch<Change>, AllocError>
    requires key { IfSome passed.now.fresh.row (λ r. MayRise r.now) }
    requires room { s.now.state.next.letter + length letters.now ≤ 2 ^ 62 }
    ensures { IfOk result (λ cs. cs ≡
        sent_changes s.now.state e passed.now letters.now mark) }
{
    let node = passed.job.letter.node;
    let succs = passed.succs.as_slice();
    let points = points_passed(alloc, passed.fresh.graph, node, &passed.input, succs)?;
    let sent = with_last(sends(alloc, letters)?, mark)?;
    let rest = with_last(puts(alloc, points.into_vec())?, sent)?;
    let rest = with_first(alloc, Change::EndJob(e), rest)?;
    let rest = unlock(alloc, passed.fresh.row, rest)?;
    draw_letters(alloc, s.next(), letters, rest)
}

// The writing of each point.
fn puts(alloc: Global, points: Vec<Point>) -> Result<Batch<Change>, AllocError>
    ensures { IfOk result (λ changes. changes ≡ map PutPoint points.items) }
{
    let mut changes = Batch::new(alloc);
    for point in points {
        changes.push(Change::PutPoint(point))?;
    }
    Ok(changes)
}

// What is told of the row, of the job and its letters, and of the mark.
fn entries_of(
    alloc: Global,
    e: EngineNo,
    passed: &Passed<'_>,
    letters: &[Letter],
    told: Batch<Entry>,
) -> Result<Batch<Entry>, AllocError>
    requires { IfSome passed.now.fresh.row (λ r. MayRise r.now) }
    ensures { IfOk result (λ es. es ≡ sent_entries e passed.now letters.now told) }
{
    let by = Actor::Engine(e);
    let rows = rows_entry(alloc, by, unlock_writes(alloc, passed.fresh.row)?)?;
    let mail = mail_entry(alloc, by, ended_and_sent(alloc, e, letters)?)?;
    with_last(rows, with_last(mail, told)?)
}
