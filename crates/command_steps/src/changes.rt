//! The changes of a command.
ghost use Rattle.std.specs.Prelude.{◌≡◌, ◌++◌, IfOk, OnOk, map};
ghost use Rattle.core_state.specs.declared.change.Change.TheVariants as change;
ghost use Rattle.command_steps.specs.Layouts.{draft_changes, settles};

use crate::draft::Draft;
use core_state::{Batch, Change, Letter, Row, Stack};
use heat_value::TryCopy;
use std::alloc::{AllocError, Global};
use step_parts::{mark_complete, three, with_last};
use traversal_graph::Node;

/// The numbers, the stack and its past, the new rows, the graph, the first letters, and the mark
/// where there is nothing to do.
pub(crate) fn changes_of(alloc: Global, draft: Draft) -> Result<Batch<Change>, AllocError>
    ensures { IfOk result (λ changes. changes ≡ draft_changes draft) }
{
    let last = settles(alloc, draft.graph.nodes.as_slice(), &draft.stack)?;
    let Draft {
        actor: _,
        next,
        stack,
        past,
        rows,
        graph,
        letters,
    } = draft;
    let name = stack.name.copy()?;
    let mut changes = three(
        alloc,
        Change::Numbers(next),
        Change::PutStack(stack),
        Change::PutPast(past),
    )?;
    put_rows(&mut changes, rows.into_vec())?;
    changes.push(Change::PutGraph(name, graph))?;
    send_all(&mut changes, letters.into_vec())?;
    with_last(changes, last)
}

// The stack's mark, where its graph has no node.
fn settles(alloc: Global, nodes: &[Node], stack: &Stack) -> Result<Batch<Change>, AllocError>
    ensures { IfOk result (λ changes. changes ≡ settles nodes.now stack.now) }
{
    match nodes {
        [] => mark_complete(alloc, stack),
        [_, ..] => Ok(Batch::new(alloc)),
    }
}

// Puts each row.
fn put_rows(changes: &mut Batch<Change>, rows: Vec<Row>) -> Result<(), AllocError>
    ensures { OnOk result (changes.new ≡ changes.old ++ map change.PutRow rows.items) }
{
    for row in rows {
        changes.push(Change::PutRow(row))?;
    }
    Ok(())
}

// Sends each letter.
fn send_all(changes: &mut Batch<Change>, letters: Vec<Letter>) -> Result<(), AllocError>
    ensures { OnOk result (changes.new ≡ changes.old ++ map change.Send letters.items) }
{
    for letter in letters {
        changes.push(Change::Send(letter))?;
    }
    Ok(())
}
