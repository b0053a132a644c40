//! A graph in which each node has an edge from each of the ten below it.

use dep_graph::{Graph, Order};
use std::alloc::{AllocError, Global};

/// How many nodes the order of such a graph lists.
pub fn listed(alloc: Global, count: u32) -> Result<usize, AllocError> {
    let mut graph = Graph::new(alloc, count)?;
    for after in 0..count {
        for back in 1..11u32 {
            add(&mut graph, after.saturating_sub(back), after)?;
        }
    }
    match graph.order()? {
        Order::Order(nodes) => Ok(nodes.len()),
        Order::Cycle(_) => Ok(0),
    }
}

// Adds an edge between two nodes of the graph.
fn add(graph: &mut Graph, before: u32, after: u32) -> Result<(), AllocError> {
    if before < after && after < graph.size() {
        graph.add_edge(before, after)?;
    }
    Ok(())
}
