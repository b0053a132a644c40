//! Whether a step's changes wear a number or a key out.
ghost use Rattle.std.specs.Prelude.{◌≡◌, ◌⊎◌, ◌↔◌, ◌<◌, ◌^◌, IsTrue, IfOk, IfErr};
ghost use Rattle.heat_plan.specs.declared.refusal.Refusal.TheVariants.{Memory, Worn};
ghost use Rattle.core_state.specs.declared.change.Change.TheVariants.{Numbers as numbers};
ghost use Rattle.step_relation.specs.Turns.{IsWorn, Overflows};

use core_state::{Batch, Change, Entry, Made, Next, Numbers};
use heat_plan::{Refusal, WORN};
use std::alloc::Global;

/// Whether one of the changes draws a number at 2^62, or raises a key to it.
pub fn is_worn(changes: &[Change]) -> bool
    ensures { IsTrue result ↔ IsWorn changes.now }
{
    for change in changes {
        if overflows(change) {
            return true;
        }
    }
    false
}

// Whether this one does.
fn overflows(change: &Change) -> bool
    ensures { IsTrue result ↔ Overflows change.now }
{
    match change {
        Change::PutRow(row) => row.key >= WORN,
        Change::Numbers(next) => are_worn(next),
        Change::PutStack(_)
        | Change::DropStack(_)
        | Change::DropRow(_)
        | Change::PutGraph(_, _)
        | Change::PutPoint(_)
        | Change::Send(_)
        | Change::Drop(_)
        | Change::PutJob(_)
        | Change::EndJob(_)
        | Change::Enlist(_)
        | Change::Stop(_)
        | Change::PutPast(_)
        | Change::Release(_) => false,
    }
}

// Whether one of the next numbers is past 2^62.
fn are_worn(next: &Numbers) -> bool
    ensures { IsTrue result ↔ Overflows (numbers next.now) }
{
    if is_past(next.stack) {
        return true;
    }
    if is_past(next.trav) {
        return true;
    }
    if is_past(next.row) {
        return true;
    }
    if is_past(next.engine) {
        return true;
    }
    is_past(next.letter)
}

// Whether this one is.
fn is_past(next: Next) -> bool
    ensures { IsTrue result ↔ (2 ^ 62 < next) }
{
    next.get() > WORN
}

/// What the step gives; refuses `Worn` where its changes wear something out.
pub fn made_within(
    alloc: Global,
    changes: Batch<Change>,
    entries: Batch<Entry>,
) -> Result<Made, Refusal>
    ensures changes { IfOk result (λ m. m.changes ≡ changes) }
    ensures entries { IfOk result (λ m. m.entries ≡ entries) }
    ensures lasts { IfOk result (λ _. ¬ IsWorn changes) }
    ensures cause { IfErr result (λ r. (r ≡ Memory) ⊎ ((r ≡ Worn) × IsWorn changes)) }
{
    if is_worn(changes.as_slice()) {
        return Err(Refusal::Worn);
    }
    Ok(Made::new(alloc, changes, entries)?)
}
