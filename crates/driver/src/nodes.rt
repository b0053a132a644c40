//! The nodes of one graph.
ghost use Rattle.std.specs.Prelude.{◌≡◌, ◌≤◌, ◌<◌, ◌^◌, Some, length, slice_get};
ghost use Rattle.std.specs.Bool.{OnFalse, OnTrue};
ghost use Rattle.core_state.specs.Reads.{HasInput, IsDone, IsReady};
ghost use Rattle.core_state.specs.State.{graph_at};
ghost use Rattle.bound_laws.specs.Counts.{Counts};
ghost use Rattle.bound_laws.specs.Rolls.{MayRoll, RollFar};
ghost use Rattle.driver.specs.Parts.{HasFarRow, IsFarNode, IsOne, IsUnreadyIn};

use core_state::{Graph, Stack, State};
use heat_plan::{Act, RowNo};
use step_reads::target_of;
use traversal_graph::Node;

/// How many nodes are neither ready nor done.
pub(crate) fn unready_in(graph: &Graph) -> u128
    ensures exact { Counts (IsUnreadyIn graph.now) result }
    ensures bound { result < 2 ^ 60 }
{
    let nodes = graph.graph.nodes.as_slice();
    let mut count = 0;
    for node in 0..nodes.len() {
        count += unready_one(graph, node);
    }
    count
}

// One where the node is neither ready nor done; else none.
fn unready_one(graph: &Graph, node: usize) -> u128
    requires { node < length graph.now.graph.nodes }
    ensures exact { IsOne (IsUnreadyIn graph.now node) result }
    ensures bound { result ≤ 1 }
{
    if is_done(graph, node) || is_ready(graph, node) {
        0
    } else {
        1
    }
}

// Whether the node is done.
fn is_done(graph: &Graph, node: usize) -> bool
    ensures yes { OnTrue result (IsDone graph.now node) }
    ensures no_ { OnFalse result (¬ IsDone graph.now node) }
{
    match graph.points.get(node) {
        Some(point) => point.done,
        None => false,
    }
}

// Whether each edge into the node has its input.
fn is_ready(graph: &Graph, node: usize) -> bool
    ensures yes { OnTrue result (IsReady graph.now node) }
    ensures no_ { OnFalse result (¬ IsReady graph.now node) }
{
    for (before, after) in graph.graph.edges.as_slice() {
        if *after as usize == node && !has_input(graph, node, *before) {
            return false;
        }
    }
    true
}

// Whether one node has given another its input.
fn has_input(graph: &Graph, node: usize, before: u32) -> bool
    ensures yes { OnTrue result (HasInput graph.now node before) }
    ensures no_ { OnFalse result (¬ HasInput graph.now node before) }
{
    let Some(point) = graph.points.get(node) else {
        return false;
    };
    for shared in point.inputs.as_slice() {
        if shared.input().from == before {
            return true;
        }
    }
    false
}

/// How many update nodes of the stack's graph have a target that is at INIT, or of another traversal.
pub(crate) fn far_in(s: &State, stack: &Stack, graph: &Graph) -> u128
    requires may { MayRoll s.now.state stack.now.name stack.now }
    requires its { graph_at s.now.state.graphs stack.now.name ≡ Some graph.now }
    ensures exact { Counts (λ i. RollFar s.now.state (stack.now.name, i)) result }
    ensures bound { result < 2 ^ 60 }
{
    let mut count = 0;
    for node in graph.graph.nodes.as_slice() {
        count += far_one(s, stack, node);
    }
    count
}

// One where the node is an update node with such a target; else none.
fn far_one(s: &State, stack: &Stack, node: &Node) -> u128
    ensures exact { IsOne (IsFarNode s.now.state stack.now node.now) result }
    ensures bound { result ≤ 1 }
{
    match node {
        Node::C(_) => 0,
        Node::U(_, _) => match target_of(s, &stack.name, node) {
            Some(no) => far_row(s, stack, no),
            None => 0,
        },
    }
}

// One where a row of this number stands that is at INIT, or of another traversal; else none.
fn far_row(s: &State, stack: &Stack, no: RowNo) -> u128
    ensures exact { IsOne (HasFarRow s.now.state stack.now no) result }
    ensures bound { result ≤ 1 }
{
    match s.row(&no) {
        Some(row) if row.act == Act::Init || row.trav != stack.trav => 1,
        _ => 0,
    }
}
