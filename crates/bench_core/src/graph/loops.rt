//! A chain of nodes in which an edge leads from each to the one below it, and which begins with a loop of two.

use anyhow::{Result, bail};
use dep_graph::{Graph, least_on_loop};
use std::alloc::{AllocError, Global};

/// The least node on the loop that a chain of so many nodes begins with.
pub fn found(alloc: Global, count: u32) -> Result<u32> {
    let mut graph = Graph::new(alloc, count)?;
    for below in 0..count.saturating_sub(1) {
        add(&mut graph, below + 1, below)?;
    }
    add(&mut graph, count.saturating_sub(2), count.saturating_sub(1))?;
    match least_on_loop(&graph)? {
        Some(node) => Ok(node),
        None => bail!("a loop"),
    }
}

// Adds an edge between two nodes of the graph.
fn add(graph: &mut Graph, before: u32, after: u32) -> Result<(), AllocError> {
    if before < graph.size() && after < graph.size() {
        graph.add_edge(before, after)?;
    }
    Ok(())
}
