//! Candidates considered fan by fan, where all of them together would close a cycle.

ghost use Rattle.std.specs.Prelude.{◌≡◌, ◌<◌, All, OnOk, length};
ghost use Rattle.dep_graph.specs.Edges.{HasEdge};
ghost use Rattle.dep_graph.specs.Marks.{MarksAll, MarksAmong};
ghost use Rattle.dep_graph.specs.Paths.{HasPath};
ghost use Rattle.traversal_graph.specs.Candidates.{edges_in, edges_out};
ghost use Rattle.traversal_graph.specs.Drafts.{IsDraft, Draws};
ghost use Rattle.traversal_graph.specs.Fans.{IsWithin, all_edges, fan_edges};

use crate::draft::Draft;
use crate::fans::Fan;
use dep_graph::Marks;
use std::alloc::AllocError;

/// Considers the edges of fans in turn.
pub(crate) fn draw_all(draft: &mut Draft, fans: &[Fan]) -> Result<(), AllocError>
    requires draft { IsDraft draft.old }
    requires within { All (IsWithin (length draft.old.graph)) fans.now }
    ensures { OnOk result (Draws (all_edges fans.now) draft.old draft.new) }
{
    for fan in fans {
        draw_fan(draft, fan)?;
    }
    Ok(())
}

// Considers the edges of one fan.
fn draw_fan(draft: &mut Draft, fan: &Fan) -> Result<(), AllocError>
    requires draft { IsDraft draft.old }
    requires within { IsWithin (length draft.old.graph) fan.now }
    ensures { OnOk result (Draws (fan_edges fan.now) draft.old draft.new) }
{
    match fan {
        Fan::In(befores, after) => draw_in(draft, befores.as_slice(), *after),
        Fan::Out(before, afters) => draw_out(draft, *before, afters.as_slice()),
    }
}

// Considers an edge from each of the nodes to a node. No edge leads out of it meanwhile, so what is
// reached from it stays the same.
fn draw_in(draft: &mut Draft, befores: &[u32], after: u32) -> Result<(), AllocError>
    requires draft { IsDraft draft.old }
    requires befores { All (λ before. before < length draft.old.graph) befores.now }
    requires after { after < length draft.old.graph }
    ensures { OnOk result (Draws (edges_in befores.now after) draft.old draft.new) }
{
    let reached = draft.graph.reached(after)?;
    draw_each_in(draft, &reached, befores, after)
}

// Considers an edge from each of the nodes to a node, from which those marked are reached.
fn draw_each_in(
    draft: &mut Draft,
    reached: &Marks,
    befores: &[u32],
    after: u32,
) -> Result<(), AllocError>
    requires draft { IsDraft draft.old }
    requires befores { All (λ before. before < length draft.old.graph) befores.now }
    requires after { after < length draft.old.graph }
    requires size { length reached.now ≡ length draft.old.graph }
    requires reached { MarksAll (HasPath (HasEdge draft.old.graph) after) reached.now }
    ensures { OnOk result (Draws (edges_in befores.now after) draft.old draft.new) }
{
    for before in befores {
        draft.draw_into(reached, *before, after)?;
    }
    Ok(())
}

// Considers an edge from a node to each of the nodes. No edge leads to it meanwhile, so what reaches it
// stays the same, and which of the nodes do is searched once for all of them.
fn draw_out(draft: &mut Draft, before: u32, afters: &[u32]) -> Result<(), AllocError>
    requires draft { IsDraft draft.old }
    requires before { before < length draft.old.graph }
    requires afters { All (λ after. after < length draft.old.graph) afters.now }
    ensures { OnOk result (Draws (edges_out before afters.now) draft.old draft.new) }
{
    let reaching = draft.graph.reaching_among(afters, before)?;
    draw_each_out(draft, &reaching, before, afters)
}

// Considers an edge from a node to each of the nodes, of which those marked reach it.
fn draw_each_out(
    draft: &mut Draft,
    reaching: &Marks,
    before: u32,
    afters: &[u32],
) -> Result<(), AllocError>
    requires draft { IsDraft draft.old }
    requires before { before < length draft.old.graph }
    requires afters { All (λ after. after < length draft.old.graph) afters.now }
    requires reaching { MarksAmong afters.now
        (λ node. HasPath (HasEdge draft.old.graph) node before) reaching.now }
    ensures { OnOk result (Draws (edges_out before afters.now) draft.old draft.new) }
{
    for after in afters {
        draft.draw_from(reaching, before, *after)?;
    }
    Ok(())
}
