//! Who is told again that a row is free.
ghost use Rattle.std.specs.Prelude.{◌≡◌, ◌↔◌, IfOk, IsTrue, option_map};
ghost use Rattle.std.specs.Bool.{OnTrue, OnFalse};
ghost use Rattle.row_table.specs.Rows.{row_at};
ghost use Rattle.traversal_graph.specs.declared.shape.Node.TheVariants.{C};
ghost use Rattle.step_relation.specs.Resends.{AwaitsUpdate, AwaitsCleanup};
ghost use Rattle.step_relation.specs.Targets.{IsTarget};
ghost use Rattle.step_reads.specs.Chains.{AreLeading};
ghost use Rattle.step_reads.specs.Waiting.{IsLeastIf, IsOpenIf, IsResent, IsUpdateOf};

use crate::chains::{is_in, leading_to};
use crate::nodes::is_open;
use crate::targets::target_of;
use core_state::{Graph, Row, Stack, State};
use heat_plan::{RowNo, StackName};
use std::alloc::{AllocError, Global};
use traversal_graph::Node;

/// The node of a stack's graph that waits for a row: the least update node, else the least clean-up
/// node, else none.
pub fn resent(
    alloc: Global,
    s: &State,
    stack: &StackName,
    row: RowNo,
) -> Result<Option<u32>, AllocError>
    ensures { IfOk result (IsResent s.now.state stack.now row) }
{
    let Some(graph) = s.graph(stack) else {
        return Ok(None);
    };
    let Some(stack) = s.stack(stack) else {
        return Ok(None);
    };
    match waiting_update(alloc, s, stack, graph, row)? {
        Some(node) => Ok(Some(node)),
        None => Ok(waiting_cleanup(alloc, graph, row)?),
    }
}

// The least update node that waits for a row.
fn waiting_update(
    alloc: Global,
    s: &State,
    stack: &Stack,
    graph: &Graph,
    row: RowNo,
) -> Result<Option<u32>, AllocError>
    ensures { IfOk result (IsLeastIf (AwaitsUpdate s.now.state stack.now graph.now row)) }
{
    let leading = leading_to(alloc, s, row)?;
    let held = s.row(&row);
    for (place, node) in graph.graph.nodes.as_slice().iter().enumerate() {
        if is_update_of(s, &stack.name, leading.as_slice(), held, node, row) {
            if let Some(place) = open_place(alloc, graph, place)? {
                return Ok(Some(place));
            }
        }
    }
    Ok(None)
}

// Whether a node is an update node whose target is this row: its chosen row leads there, or stands
// no more and this row is its name's current one.
fn is_update_of(
    s: &State,
    stack: &StackName,
    leading: &[RowNo],
    held: Option<&Row>,
    node: &Node,
    row: RowNo,
) -> bool
    requires leading { AreLeading s.now.state.rows row leading.now }
    requires held { option_map (λ r. r.now) held ≡ row_at s.now.state.rows row }
    ensures yes { OnTrue result (IsUpdateOf s.now.state.rows stack.now node.now row) }
    ensures no_ { OnFalse result (¬ IsUpdateOf s.now.state.rows stack.now node.now row) }
{
    let Node::U(name, chosen) = node else {
        return false;
    };
    if is_in(leading, *chosen) {
        return true;
    }
    match held {
        Some(held) if held.name == *name => has_target(s, stack, node, row),
        _ => false,
    }
}

// Whether a node is about this row.
fn has_target(s: &State, stack: &StackName, node: &Node, row: RowNo) -> bool
    ensures yes { OnTrue result (IsTarget s.now.state.rows stack.now node.now row) }
    ensures no_ { OnFalse result (¬ IsTarget s.now.state.rows stack.now node.now row) }
{
    match target_of(s, stack, node) {
        Some(target) => target == row,
        None => false,
    }
}

// The least clean-up node that waits for a row.
fn waiting_cleanup(alloc: Global, graph: &Graph, row: RowNo) -> Result<Option<u32>, AllocError>
    ensures { IfOk result (IsLeastIf (AwaitsCleanup graph.now row)) }
{
    for (place, node) in graph.graph.nodes.as_slice().iter().enumerate() {
        if is_cleanup_of(node, row) {
            if let Some(place) = open_place(alloc, graph, place)? {
                return Ok(Some(place));
            }
        }
    }
    Ok(None)
}

// Whether a node is the clean-up node of this row.
fn is_cleanup_of(node: &Node, row: RowNo) -> bool
    ensures { IsTrue result ↔ (node.now ≡ C row) }
{
    match node {
        Node::C(no) => *no == row,
        Node::U(_, _) => false,
    }
}

// The place, if its node is ready and not done.
fn open_place(alloc: Global, graph: &Graph, place: usize) -> Result<Option<u32>, AllocError>
    ensures { IfOk result (IsOpenIf graph.now place) }
{
    let Ok(node) = u32::try_from(place) else {
        return Err(AllocError);
    };
    if is_open(alloc, graph, node)? {
        Ok(Some(node))
    } else {
        Ok(None)
    }
}
