//! The least node that is on a loop.
ghost use Rattle.std.specs.Prelude.{◌↔◌, ◌<◌, ℕ, IfOk, IsTrue, MatchOption, All, length};
ghost use Rattle.dep_graph.specs.Edges.{HasEdge};
ghost use Rattle.dep_graph.specs.Lists.{IsLeast};
ghost use Rattle.dep_graph.specs.Loops.{IsOnLoop, HasMarked};
ghost use Rattle.dep_graph.specs.Ranks.{AreRanks, HasRank};

use crate::ranking::ranks;
use crate::{Graph, Marks};
use std::alloc::AllocError;

/// The least node that is on a loop; None where no node is.
pub fn least_on_loop(graph: &Graph) -> Result<Option<u32>, AllocError>
    ensures { IfOk result (λ o. MatchOption o
        ((node : ℕ) → ¬ IsOnLoop (HasEdge graph.now) node)
        (λ node. (node < length graph.now) × IsLeast (IsOnLoop (HasEdge graph.now)) node)) }
{
    let ranks = ranks(graph)?;
    for node in 0..graph.size() {
        if is_on_loop(graph, ranks.as_slice(), node)? {
            return Ok(Some(node));
        }
    }
    Ok(None)
}

// Whether a path leads from a node along at least one edge to itself. No search is needed where each edge
// leads to a lower rank, since no edge leads back up.
fn is_on_loop(graph: &Graph, ranks: &[usize], node: u32) -> Result<bool, AllocError>
    requires node { node < length graph.now }
    requires ranks { AreRanks (HasEdge graph.now) (length graph.now) 0 ranks.now }
    ensures { IfOk result (λ b. IsTrue b ↔ IsOnLoop (HasEdge graph.now) node) }
{
    let nexts = graph.succs(node);
    if !any_has_rank(nexts, ranks, ranks[node as usize]) {
        return Ok(false);
    }
    let reaching = graph.reaching(node)?;
    Ok(any_marked(nexts, &reaching))
}

// Whether one of these nodes has this rank.
fn any_has_rank(nodes: &[u32], ranks: &[usize], rank: usize) -> bool
    requires { All (λ node. node < length ranks.now) nodes.now }
    ensures { IsTrue result ↔ HasRank nodes.now ranks.now rank }
{
    for node in nodes {
        if ranks[*node as usize] == rank {
            return true;
        }
    }
    false
}

// Whether one of these nodes has its mark.
fn any_marked(nodes: &[u32], marks: &Marks) -> bool
    ensures { IsTrue result ↔ HasMarked nodes.now marks.now }
{
    for node in nodes {
        if marks.has(*node) {
            return true;
        }
    }
    false
}
