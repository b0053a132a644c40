//! Fail: what follows from a job's failure, by whether it still has work and its stack has a mark.
ghost use Rattle.std.specs.Prelude.{◌≡◌, ◌≤◌, ◌+◌, ◌^◌, ◌⊎◌, ◌∷◌, ◌++◌, [], IfErr};
ghost use Rattle.std.specs.Prelude.{Err, IfOk, IfSome, None, Ok, Some, length, option_map};
ghost use Rattle.heat_plan.specs.declared.phase.Status.TheVariants.{InProgress};
ghost use Rattle.heat_plan.specs.declared.refusal.Refusal.TheVariants.{Memory, Worn};
ghost use Rattle.row_table.specs.Rows.{row_at};
ghost use Rattle.core_state.specs.State.{stack_at};
ghost use Rattle.step_relation.specs.Asks.{Falls, failed_changes, failed_entries};
ghost use Rattle.step_relation.specs.Turns.{IsWorn};
ghost use Rattle.command_steps.specs.Rooms.{MayRise};
ghost use Rattle.step_ends.specs.Falls.{IsEnded, IsFallen, OrWorn};

use crate::again::{letters_again, next_letter};
use crate::failing::{failed_changes, failed_entries};
use crate::rolling::{rolled_behind, rolled_behind_twice};
use command_steps::{freshness, joined, made_within, may_rise, with_first};
use core_state::{Batch, Entry, Job, Letter, Made, Row, Stack, State, Why};
use heat_plan::{EngineNo, Refusal, Status};
use std::alloc::Global;

/// The call that failed, and why a traversal fails by it.
#[derive(Debug, Drop)]
pub struct Failure {
    pub call: Entry,
    pub reason: Why,
}

/// What follows from the failure of the engine's job at its row; the call is told first.
pub fn fallen(
    alloc: Global,
    s: &State,
    e: EngineNo,
    job: &Job,
    row: &Row,
    why: Failure,
) -> Result<Made, Refusal>
    requires { row_at s.now.state.rows job.now.row ≡ Some row.now }
    ensures made { IfOk result (λ m.
        IsFallen s.now.state e job.now row.now why m.changes m.entries) }
    ensures lasts { IfOk result (λ m. ¬ IsWorn m.changes) }
    ensures cause { IfErr result (OrWorn (IsFallen s.now.state e job.now row.now why)) }
{
    let number = next_letter(s);
    match freshness(s, job) {
        Some(fresh) => match fresh.stack.status {
            Status::InProgress => mark(alloc, s, e, row, fresh.stack, why),
            Status::Complete | Status::Failed => leave(alloc, s, e, row, Batch::new(alloc), why),
        },
        None => {
            let letters = letters_again(alloc, s, &job.letter.stack, job.row, number)?;
            leave(alloc, s, e, row, letters, why)
        }
    }
}

/// What follows from it under two answers, of one layout.
pub(crate) fn fallen_twice(
    alloc: Global,
    s: &State,
    e: EngineNo,
    job: &Job,
    row: &Row,
    why: Failure,
    other: Failure,
) -> Result<(Made, Made), Refusal>
    requires { row_at s.now.state.rows job.now.row ≡ Some row.now }
    ensures first { IfOk result (λ both.
        IsFallen s.now.state e job.now row.now why both.0.changes both.0.entries) }
    ensures second { IfOk result (λ both.
        IsFallen s.now.state e job.now row.now other both.1.changes both.1.entries) }
    ensures lasts { IfOk result (λ both. ¬ IsWorn both.0.changes) }
    ensures cause { IfErr result (OrWorn (IsFallen s.now.state e job.now row.now why)) }
{
    let _ = next_letter(s);
    match running(s, job) {
        Some(stack) => mark_twice(alloc, s, e, row, stack, why, other),
        None => paired(
            fallen(alloc, s, e, job, row, why),
            fallen(alloc, s, e, job, row, other),
        ),
    }
}

// The stack that the failure of a job marks; none where it marks none.
fn running<'a>(s: &'a State, job: &Job) -> Option<&'a Stack>
    ensures { IfSome result (λ stack. (stack.now.status ≡ InProgress)
        × Falls s.now.state job.now [] (Some stack.now)
        × (stack_at s.now.state.stacks stack.now.name ≡ Some stack.now)) }
{
    match freshness(s, job) {
        Some(fresh) => match fresh.stack.status {
            Status::InProgress => Some(fresh.stack),
            Status::Complete | Status::Failed => None,
        },
        None => None,
    }
}

// The row fails, the job ends, and the stack is marked, under two answers; a rollback is laid out once.
fn mark_twice(
    alloc: Global,
    s: &State,
    e: EngineNo,
    row: &Row,
    stack: &Stack,
    why: Failure,
    other: Failure,
) -> Result<(Made, Made), Refusal>
    requires row { row_at s.now.state.rows row.now.no ≡ Some row.now }
    requires found { stack_at s.now.state.stacks stack.now.name ≡ Some stack.now }
    requires running { stack.now.status ≡ InProgress }
    requires range { s.now.state.next.letter ≤ 2 ^ 62 }
    ensures first { IfOk result (λ both. IsEnded s.now.state e row.now [] (Some stack.now) why
        both.0.changes both.0.entries) }
    ensures second { IfOk result (λ both. IsEnded s.now.state e row.now [] (Some stack.now) other
        both.1.changes both.1.entries) }
    ensures lasts { IfOk result (λ both. ¬ IsWorn both.0.changes) }
    ensures cause { IfErr result (λ r.
        OrWorn (IsEnded s.now.state e row.now [] (Some stack.now) why) r
        ⊎ OrWorn (IsEnded s.now.state e row.now [] (Some stack.now) other) r) }
{
    match rolled_behind_twice(alloc, s, e, stack) {
        Ok(Some((last, again))) => paired(
            rolled(alloc, s, e, row, stack, last, why),
            rolled(alloc, s, e, row, stack, again, other),
        ),
        Ok(None) => paired(
            marked(alloc, s, e, row, stack, why),
            marked(alloc, s, e, row, stack, other),
        ),
        Err(refusal) => Err(refusal),
    }
}

// Both steps, or the first refusal.
fn paired(
    first: Result<Made, Refusal>,
    second: Result<Made, Refusal>,
) -> Result<(Made, Made), Refusal>
    ensures ok { IfOk result (λ both. (first ≡ Ok both.0) × (second ≡ Ok both.1)) }
    ensures err { IfErr result (λ r. (first ≡ Err r) ⊎ (second ≡ Err r)) }
{
    Ok((first?, second?))
}

// The row fails and the job ends, with these letters and no mark.
fn leave(
    alloc: Global,
    s: &State,
    e: EngineNo,
    row: &Row,
    letters: Batch<Letter>,
    why: Failure,
) -> Result<Made, Refusal>
    requires { s.now.state.next.letter + length letters ≤ 2 ^ 62 }
    ensures made { IfOk result (λ m.
        IsEnded s.now.state e row.now letters None why m.changes m.entries) }
    ensures lasts { IfOk result (λ m. ¬ IsWorn m.changes) }
    ensures cause { IfErr result (OrWorn (IsEnded s.now.state e row.now letters None why)) }
{
    if !may_rise(row) {
        return Err(Refusal::Worn);
    }
    ended(alloc, s, e, row, letters.as_slice(), None, why)
}

// The row fails, the job ends, and the stack, which has no mark, is marked; a rollback follows where
// it is due.
fn mark(
    alloc: Global,
    s: &State,
    e: EngineNo,
    row: &Row,
    stack: &Stack,
    why: Failure,
) -> Result<Made, Refusal>
    requires row { row_at s.now.state.rows row.now.no ≡ Some row.now }
    requires found { stack_at s.now.state.stacks stack.now.name ≡ Some stack.now }
    requires running { stack.now.status ≡ InProgress }
    requires range { s.now.state.next.letter ≤ 2 ^ 62 }
    ensures made { IfOk result (λ m.
        IsEnded s.now.state e row.now [] (Some stack.now) why m.changes m.entries) }
    ensures lasts { IfOk result (λ m. ¬ IsWorn m.changes) }
    ensures cause { IfErr result (OrWorn (IsEnded s.now.state e row.now [] (Some stack.now) why)) }
{
    match rolled_behind(alloc, s, e, stack) {
        Ok(Some(last)) => rolled(alloc, s, e, row, stack, last, why),
        Ok(None) => marked(alloc, s, e, row, stack, why),
        Err(refusal) => Err(refusal),
    }
}

// The mark alone.
fn marked(
    alloc: Global,
    s: &State,
    e: EngineNo,
    row: &Row,
    stack: &Stack,
    why: Failure,
) -> Result<Made, Refusal>
    requires { s.now.state.next.letter ≤ 2 ^ 62 }
    ensures changes { IfOk result (λ m.
        m.changes ≡ failed_changes s.now.state e row.now [] (Some stack.now)) }
    ensures entries { IfOk result (λ m. m.entries ≡
        why.call ∷ failed_entries e row.now [] (Some stack.now) why.reason) }
    ensures lasts { IfOk result (λ m. ¬ IsWorn m.changes) }
    ensures cause { IfErr result (λ r. (r ≡ Memory)
        ⊎ ((r ≡ Worn) × IsWorn (failed_changes s.now.state e row.now [] (Some stack.now)))) }
{
    if !may_rise(row) {
        return Err(Refusal::Worn);
    }
    ended(alloc, s, e, row, &[], Some(stack), why)
}

// The mark, and the rollback behind it.
fn rolled(
    alloc: Global,
    s: &State,
    e: EngineNo,
    row: &Row,
    stack: &Stack,
    last: Made,
    why: Failure,
) -> Result<Made, Refusal>
    requires range { s.now.state.next.letter ≤ 2 ^ 62 }
    requires lasts { ¬ IsWorn last.changes }
    ensures changes { IfOk result (λ m. m.changes ≡
        failed_changes s.now.state e row.now [] (Some stack.now) ++ last.changes) }
    ensures entries { IfOk result (λ m. m.entries ≡
        (why.call ∷ failed_entries e row.now [] (Some stack.now) why.reason) ++ last.entries) }
    ensures lasts { IfOk result (λ m. ¬ IsWorn m.changes) }
    ensures cause { IfErr result (λ r. (r ≡ Memory)
        ⊎ ((r ≡ Worn) × IsWorn (failed_changes s.now.state e row.now [] (Some stack.now)))) }
{
    let first = marked(alloc, s, e, row, stack, why)?;
    Ok(joined(first, last)?)
}

// The step of a failure, but for the rollback.
fn ended(
    alloc: Global,
    s: &State,
    e: EngineNo,
    row: &Row,
    letters: &[Letter],
    failed: Option<&Stack>,
    why: Failure,
) -> Result<Made, Refusal>
    requires key { MayRise row.now }
    requires room { s.now.state.next.letter + length letters.now ≤ 2 ^ 62 }
    ensures changes { IfOk result (λ m. m.changes ≡
        failed_changes s.now.state e row.now letters.now (option_map (λ st. st.now) failed.entry)) }
    ensures entries { IfOk result (λ m. m.entries ≡ why.call ∷
        failed_entries e row.now letters.now (option_map (λ st. st.now) failed.entry) why.reason) }
    ensures lasts { IfOk result (λ m. ¬ IsWorn m.changes) }
    ensures cause { IfErr result (λ r. (r ≡ Memory) ⊎ ((r ≡ Worn) × IsWorn
        (failed_changes s.now.state e row.now letters.now (option_map (λ st. st.now) failed.entry)))) }
{
    let changes = failed_changes(alloc, s, e, row, letters, failed)?;
    let entries = failed_entries(alloc, e, row, letters, failed, why.reason)?;
    made_within(alloc, changes, with_first(alloc, why.call, entries)?)
}
