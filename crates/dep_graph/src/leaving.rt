//! The nodes of a graph in the order in which a search along the edges leaves them: each once the search has
//! left all that it came to from there.
ghost use Rattle.std.specs.Prelude.{◌≡◌, ◌<◌, ◌++◌, All, IfOk, OnOk, length, map};
ghost use Rattle.dep_graph.specs.Edges.{HasEdge};
ghost use Rattle.dep_graph.specs.Leaving.{AreWithin, Enters};
ghost use Rattle.dep_graph.specs.declared.leaving.Visit.TheVariants.{Enter as entering};

use crate::Graph;
use std::alloc::{AllocError, Global};

// What the search does next: it enters a node, or leaves it.
#[derive(Clone, Copy, Debug, Drop)]
enum Visit {
    Enter(u32),
    Leave(u32),
}

/// All nodes, each once, in the order in which the search leaves them.
pub fn leaving_order(graph: &Graph) -> Result<Vec<u32>, AllocError>
    ensures { IfOk result (λ order. All (λ node. node < length graph.now) order.items) }
{
    let alloc = graph.allocator();
    let mut entered = vec![in alloc; false; graph.size() as usize]?;
    let mut order = Vec::new(alloc);
    let mut visits = all_visits(alloc, graph.size())?;
    while let Some(visit) = visits.pop() {
        match visit {
            Visit::Enter(node) => enter(graph, node, &mut entered, &mut visits)?,
            Visit::Leave(node) => order.push(node)?,
        }
    }
    Ok(order)
}

// A visit to each node.
fn all_visits(alloc: Global, size: u32) -> Result<Vec<Visit>, AllocError>
    ensures { IfOk result (λ visits. AreWithin size visits.items) }
{
    let mut visits = Vec::with_capacity(alloc, size as usize)?;
    for node in 0..size {
        visits.push(Visit::Enter(node))?;
    }
    Ok(visits)
}

// Enters a node that wasn't entered: it is left behind visits to all to which it leads.
fn enter(
    graph: &Graph,
    node: u32,
    entered: &mut Vec<bool>,
    visits: &mut Vec<Visit>,
) -> Result<(), AllocError>
    requires node { node < length graph.now }
    requires size { length entered.old.items ≡ length graph.now }
    ensures { OnOk result (Enters (HasEdge graph.now) node
        entered.old.items visits.old.items entered.new.items visits.new.items) }
{
    if entered[node as usize] {
        return Ok(());
    }
    entered[node as usize] = true;
    visits.push(Visit::Leave(node))?;
    add_visits(graph.succs(node), visits)
}

// Visits to these nodes, behind those that are there.
fn add_visits(nodes: &[u32], visits: &mut Vec<Visit>) -> Result<(), AllocError>
    ensures { OnOk result (visits.new.items ≡ visits.old.items ++ map (λ node. entering node) nodes.now) }
{
    for node in nodes {
        visits.push(Visit::Enter(*node))?;
    }
    Ok(())
}
