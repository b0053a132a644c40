//! How far a node of a graph is.
ghost use Rattle.std.specs.Prelude.{◌≡◌, ◌↔◌, ◌++◌, IfOk, IsTrue, Contains, map};
ghost use Rattle.std.specs.Prelude.{option_map, option_to_list, slice_get};
ghost use Rattle.std.specs.Bool.{OnTrue, OnFalse};
ghost use Rattle.std.specs.List.Sorted.{IsNonDecreasing};
ghost use Rattle.traversal_graph.specs.Builds.{Joins};
ghost use Rattle.core_state.specs.Reads.{IsDone, IsReady};
ghost use Rattle.step_relation.specs.Resends.{IsOpen};
ghost use Rattle.step_reads.specs.Readiness.{ComesFrom, HaveAll, IsReadyWith, LacksOne};

use core_state::{Graph, Point, SharedInput};
use std::alloc::{AllocError, Global};

/// A node's point; none where the graph has none.
pub fn point_of(graph: &Graph, node: u32) -> Option<&Point>
    ensures { option_map (λ p. p.now) result ≡ slice_get graph.now.points node }
{
    graph.points.get(node as usize)
}

/// Whether a node is done.
pub fn is_done(graph: &Graph, node: u32) -> bool
    ensures yes { OnTrue result (IsDone graph.now node) }
    ensures no_ { OnFalse result (¬ IsDone graph.now node) }
{
    match point_of(graph, node) {
        Some(point) => point.done,
        None => false,
    }
}

/// Whether a node is ready and not done.
pub fn is_open(alloc: Global, graph: &Graph, node: u32) -> Result<bool, AllocError>
    ensures yes { IfOk result (λ b. OnTrue b (IsOpen graph.now node)) }
    ensures no_ { IfOk result (λ b. OnFalse b (¬ IsOpen graph.now node)) }
{
    Ok(!is_done(graph, node) && is_ready(alloc, graph, node)?)
}

/// Whether each edge into a node has its input.
pub fn is_ready(alloc: Global, graph: &Graph, node: u32) -> Result<bool, AllocError>
    ensures yes { IfOk result (λ b. OnTrue b (IsReady graph.now node)) }
    ensures no_ { IfOk result (λ b. OnFalse b (¬ IsReady graph.now node)) }
{
    Ok(is_ready_with(alloc, graph, node, None)?)
}

/// Whether each edge into a node has its input, or comes from this node.
pub(crate) fn is_ready_with(
    alloc: Global,
    graph: &Graph,
    node: u32,
    from: Option<u32>,
) -> Result<bool, AllocError>
    ensures yes { IfOk result (λ b. OnTrue b (IsReadyWith graph.now node from)) }
    ensures no_ { IfOk result (λ b. OnFalse b (¬ IsReadyWith graph.now node from)) }
{
    let edges = graph.graph.edges.as_slice();
    match point_of(graph, node) {
        Some(point) => {
            let sources = sources(alloc, point.inputs.as_slice(), from)?;
            Ok(have_all(edges, node, sources.as_slice()))
        }
        None => Ok(have_all(edges, node, &[])),
    }
}

// Whether each edge into a node comes from one of these nodes, which don't fall.
fn have_all(edges: &[(u32, u32)], node: u32, sources: &[u32]) -> bool
    requires { IsNonDecreasing sources.now }
    ensures yes { OnTrue result (HaveAll edges.now node sources.now) }
    ensures no_ { OnFalse result (LacksOne edges.now node sources.now) }
{
    for (before, after) in edges {
        if *after == node {
            if !is_among(sources, *before) {
                return false;
            }
        }
    }
    true
}

// Whether a node is one of these, which don't fall.
fn is_among(nodes: &[u32], node: u32) -> bool
    requires { IsNonDecreasing nodes.now }
    ensures { IsTrue result ↔ Contains nodes.now node }
{
    nodes.binary_search(&node).is_ok()
}

// The nodes that gave these inputs, and this one, none before a lower one.
fn sources(alloc: Global, inputs: &[SharedInput], from: Option<u32>) -> Result<Vec<u32>, AllocError>
    ensures sorted { IfOk result (λ sources. IsNonDecreasing sources.items) }
    ensures each { IfOk result (λ sources.
        (a : _) → Contains sources.items a ↔ ComesFrom inputs.now from a) }
{
    let mut sources = givers(alloc, inputs, from)?;
    sources.sort()?;
    Ok(sources)
}

// The nodes that gave these inputs in their order, and this one.
fn givers(alloc: Global, inputs: &[SharedInput], from: Option<u32>) -> Result<Vec<u32>, AllocError>
    ensures { IfOk result (λ givers.
        givers.items ≡ map (λ x. x.from) inputs.now ++ option_to_list from) }
{
    let mut givers = Vec::new(alloc);
    for shared in inputs {
        givers.push(shared.input().from)?;
    }
    match from {
        Some(from) => {
            givers.push(from)?;
            Ok(givers)
        }
        None => Ok(givers),
    }
}
