//! What the end of a node leaves of its graph: which nodes are ready, and whether all are done.
ghost use Rattle.std.specs.Prelude.{◌<◌, IfOk, length};
ghost use Rattle.std.specs.Bool.{OnTrue, OnFalse};
ghost use Rattle.dep_graph.specs.Lists.{IsRising, ListsAll};
ghost use Rattle.traversal_graph.specs.Builds.{Joins};
ghost use Rattle.step_relation.specs.Inputs.{passed, AllDone};
ghost use Rattle.step_reads.specs.Waiting.{IsDoneThen, IsReadyThen};

use crate::nodes::is_ready_with;
use core_state::{Graph, Input};
use heat_value::Seq;
use std::alloc::{AllocError, Global};

/// The nodes behind one, rising.
pub fn succs_of(graph: &Graph, node: u32) -> Result<Seq<u32>, AllocError>
    requires { node < length graph.now.graph.nodes }
    ensures { IfOk result (ListsAll (Joins graph.now.graph.edges node)) }
{
    graph.graph.succs(node)
}

/// Those of the nodes behind one that are ready then, rising.
pub fn ready_then(
    alloc: Global,
    graph: &Graph,
    node: u32,
    input: &Input,
    succs: &[u32],
) -> Result<Seq<u32>, AllocError>
    requires { IsRising succs.now }
    ensures { IfOk result (ListsAll (IsReadyThen graph.now node input.now succs.now)) }
{
    let mut ready = Seq::new(alloc);
    for succ in succs {
        if is_ready_with(alloc, graph, *succ, Some(input.from))? {
            ready.push(*succ)?;
        }
    }
    Ok(ready)
}

/// Whether every node is done then.
pub fn all_done(graph: &Graph, node: u32, input: &Input, succs: &[u32]) -> bool
    ensures yes { OnTrue result (AllDone (passed graph.now node input.now succs.now)) }
    ensures no_ { OnFalse result (¬ AllDone (passed graph.now node input.now succs.now)) }
{
    for place in 0..graph.graph.nodes.len() {
        if !is_done_then(graph, node, place) {
            return false;
        }
    }
    true
}

// Whether a node of the graph is done then.
fn is_done_then(graph: &Graph, node: u32, place: usize) -> bool
    ensures yes { OnTrue result (IsDoneThen graph.now node place) }
    ensures no_ { OnFalse result (¬ IsDoneThen graph.now node place) }
{
    match graph.points.get(place) {
        Some(point) => point.done || place == node as usize,
        None => false,
    }
}
