//! Whether edges close a cycle, told by one order of the nodes.

ghost use Rattle.std.specs.Prelude.{◌↔◌, ◌≡◌, ◌<◌, ℕ, All, IfOk, IsTrue};
ghost use Rattle.dep_graph.specs.Edges.{HasEdge};
ghost use Rattle.dep_graph.specs.Paths.{IsAcyclic};
ghost use Rattle.traversal_graph.specs.Builds.{Joins};

use dep_graph::{Graph, Order};
use std::alloc::{AllocError, Global};

/// Whether edges between nodes below a size form no cycle.
pub(crate) fn are_acyclic(
    alloc: Global,
    size: u32,
    edges: &[(u32, u32)],
) -> Result<bool, AllocError>
    requires { All (λ (edge : ℕ × ℕ). (edge.0 < size) × (edge.1 < size)) edges.now }
    ensures { IfOk result (λ b. IsTrue b ↔ IsAcyclic (Joins edges.now)) }
{
    let graph = graph_of(alloc, size, edges)?;
    match graph.order()? {
        Order::Order(_) => Ok(true),
        Order::Cycle(_) => Ok(false),
    }
}

// A graph with these edges. They come so that each goes to the end of its two lists.
fn graph_of(alloc: Global, size: u32, edges: &[(u32, u32)]) -> Result<Graph, AllocError>
    requires { All (λ (edge : ℕ × ℕ). (edge.0 < size) × (edge.1 < size)) edges.now }
    ensures { IfOk result (λ graph. (before after : ℕ)
        → HasEdge graph before after ↔ Joins edges.now before after) }
{
    let mut graph = Graph::new(alloc, size)?;
    for (before, after) in edges {
        graph.add_edge(*before, *after)?;
    }
    Ok(graph)
}
