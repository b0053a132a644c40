//! Ranks of nodes, from 1, such that no edge leads to a higher one: so a loop stays at one rank.
ghost use Rattle.std.specs.Prelude.{◌<◌, IfOk, OnOk, length};
ghost use Rattle.dep_graph.specs.Edges.{HasEdge};
ghost use Rattle.dep_graph.specs.Ranks.{AreRanks};

use crate::Graph;
use crate::leaving::leaving_order;
use std::alloc::AllocError;

/// A rank for each node: nodes that loops join have one rank, and other nodes another. That no edge leads to a
/// higher rank is promised; that nodes without a common loop differ comes of the order in which they are left,
/// and spares searches.
pub fn ranks(graph: &Graph) -> Result<Vec<usize>, AllocError>
    ensures { IfOk result (λ ranks. AreRanks (HasEdge graph.now) (length graph.now) 0 ranks.items) }
{
    let mut ranks = vec![in graph.allocator(); 0; graph.size() as usize]?;
    let mut order = leaving_order(graph)?;
    while let Some(node) = order.pop() {
        let rank = order.len() + 1;
        rank_reaching(graph, node, rank, &mut ranks)?;
    }
    Ok(ranks)
}

// Gives a rank to those nodes without one that reach this node through such nodes. All that have a rank have
// at least this one.
fn rank_reaching(
    graph: &Graph,
    goal: u32,
    rank: usize,
    ranks: &mut Vec<usize>,
) -> Result<(), AllocError>
    requires goal { goal < length graph.now }
    requires rank { 0 < rank }
    requires ranks { AreRanks (HasEdge graph.now) (length graph.now) rank ranks.old.items }
    ensures { OnOk result (AreRanks (HasEdge graph.now) (length graph.now) rank ranks.new.items) }
{
    let mut pending = Vec::new(graph.allocator());
    pending.push(goal)?;
    while let Some(node) = pending.pop() {
        if ranks[node as usize] == 0 {
            ranks[node as usize] = rank;
            pending.extend_from_slice(graph.preds(node))?;
        }
    }
    Ok(())
}
