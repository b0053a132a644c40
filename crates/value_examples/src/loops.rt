//! Deep chains: a search that recursed would have no stack left.

use dep_graph::{Graph, least_on_loop};
use std::alloc::{AllocError, Global};
use std::test::Fail;

const COUNT: u32 = 100_000;

#[test]
fn goes_down_a_chain_of_a_hundred_thousand(rt: HostRuntime) -> Result<(), Fail> {
    let mut graph = chain(rt.alloc())?;
    assert_eq!(rt; least_on_loop(&graph)?, None);
    join(&mut graph, COUNT - 1, COUNT - 2)?;
    assert_eq!(rt; least_on_loop(&graph)?, Some(COUNT - 2));
    join(&mut graph, 1, 0)?;
    assert_eq!(rt; least_on_loop(&graph)?, Some(0));
    Ok(())
}

// So many nodes, with an edge from each to the next.
fn chain(alloc: Global) -> Result<Graph, AllocError> {
    let mut graph = Graph::new(alloc, COUNT)?;
    for node in 1..COUNT {
        join(&mut graph, node - 1, node)?;
    }
    Ok(graph)
}

// Adds an edge between two nodes of the graph.
fn join(graph: &mut Graph, before: u32, after: u32) -> Result<(), AllocError> {
    if before < graph.size() && after < graph.size() {
        graph.add_edge(before, after)?;
    }
    Ok(())
}
