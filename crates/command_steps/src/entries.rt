//! The entries of a command.
ghost use Rattle.std.specs.Prelude.{◌≡◌, ◌++◌, ◌∷◌, [], IfOk, map};
ghost use Rattle.core_state.specs.declared.entry.MailWrite.TheVariants.{Sent};
ghost use Rattle.core_state.specs.declared.entry.RowWrite.TheVariants.{Set};
ghost use Rattle.core_state.specs.declared.entry.What.TheVariants as what;
ghost use Rattle.step_relation.specs.Writes.{entry_of, mail_entry, rows_entry};
ghost use Rattle.command_steps.specs.Layouts.{draft_entries, settle_mark};

use crate::draft::Draft;
use core_state::{Actor, Batch, Entry, Row, RowWrite, SharedPlan, Stack, What};
use heat_plan::Plan;
use heat_value::{Seq, TryCopy};
use std::alloc::{AllocError, Global};
use step_parts::{complete_mark, mail_entry, one, rows_entry, sent_all, with_last};
use traversal_graph::Node;

/// The command, the rows, the letters, and the mark where there is nothing to do.
pub(crate) fn entries_of(alloc: Global, draft: &Draft) -> Result<Batch<Entry>, AllocError>
    ensures { IfOk result (λ entries. entries ≡ draft_entries draft.now) }
{
    let first = command_told(alloc, draft)?;
    with_last(first, behind_told(alloc, draft)?)
}

// The command.
fn command_told(alloc: Global, draft: &Draft) -> Result<Batch<Entry>, AllocError>
    ensures { IfOk result (λ entries. entries ≡ entry_of draft.now.actor
        (what.Command draft.now.stack.name draft.now.stack.trav draft.now.stack.act
        draft.now.stack.plan draft.now.past.rollback) ∷ []) }
{
    one(alloc, command_entry(draft)?)
}

// What is told behind the command.
fn behind_told(alloc: Global, draft: &Draft) -> Result<Batch<Entry>, AllocError>
    ensures { IfOk result (λ entries. entries ≡ rows_entry draft.now.actor (map Set draft.now.rows)
        ++ (mail_entry draft.now.actor (map Sent draft.now.letters)
        ++ settle_mark draft.now.graph.nodes draft.now.actor draft.now.stack)) }
{
    let rows = rows_told(alloc, draft)?;
    with_last(rows, mail_told(alloc, draft)?)
}

// The command itself.
fn command_entry(draft: &Draft) -> Result<Entry, AllocError>
    ensures { IfOk result (λ entry. entry ≡ entry_of draft.now.actor
        (what.Command draft.now.stack.name draft.now.stack.trav draft.now.stack.act
        draft.now.stack.plan draft.now.past.rollback)) }
{
    let stack = &draft.stack;
    Ok(Entry {
        by: draft.actor,
        what: What::Command {
            stack: stack.name.copy()?,
            trav: stack.trav,
            act: stack.act,
            plan: told_plan(&stack.plan)?,
            rollback: draft.past.rollback,
        },
    })
}

// The plan as it is told.
fn told_plan(plan: &Option<SharedPlan>) -> Result<Option<Plan>, AllocError>
    ensures { IfOk result (λ told. told ≡ plan.now) }
{
    match plan {
        Some(plan) => Ok(Some(plan.plan().copy()?)),
        None => Ok(None),
    }
}

// The rows that were made.
fn rows_told(alloc: Global, draft: &Draft) -> Result<Batch<Entry>, AllocError>
    ensures { IfOk result (λ entries. entries ≡ rows_entry draft.now.actor
        (map Set draft.now.rows)) }
{
    let writes = set_all(alloc, draft.rows.as_slice())?;
    rows_entry(alloc, draft.actor, writes)
}

// A write of each row.
fn set_all(alloc: Global, rows: &[Row]) -> Result<Seq<RowWrite>, AllocError>
    ensures { IfOk result (λ writes. writes ≡ map Set rows.now) }
{
    let mut writes = Seq::with_capacity(alloc, rows.len())?;
    for row in rows {
        writes.push(RowWrite::Set(row.copy()?))?;
    }
    Ok(writes)
}

// The letters that were sent, and the mark.
fn mail_told(alloc: Global, draft: &Draft) -> Result<Batch<Entry>, AllocError>
    ensures { IfOk result (λ entries. entries ≡ mail_entry draft.now.actor
        (map Sent draft.now.letters)
        ++ settle_mark draft.now.graph.nodes draft.now.actor draft.now.stack) }
{
    let writes = sent_all(alloc, draft.letters.as_slice())?;
    let mail = mail_entry(alloc, draft.actor, writes)?;
    let nodes = draft.graph.nodes.as_slice();
    with_last(mail, settle_mark(alloc, nodes, draft.actor, &draft.stack)?)
}

// What is told of the stack's mark, where its graph has no node.
fn settle_mark(
    alloc: Global,
    nodes: &[Node],
    actor: Actor,
    stack: &Stack,
) -> Result<Batch<Entry>, AllocError>
    ensures { IfOk result (λ entries. entries ≡ settle_mark nodes.now actor stack.now) }
{
    match nodes {
        [] => one(alloc, complete_mark(actor, stack)?),
        [_, ..] => Ok(Batch::new(alloc)),
    }
}
