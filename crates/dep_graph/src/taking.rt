//! Nodes taken away one by one, the least that is ready first. Each node's count says how many of
//! its predecessors are left; a node is ready once its count is none.

ghost use Rattle.std.specs.Prelude.{◌≡◌, ◌<◌, ◌≤◌, [], ◌∷◌, ℕ, All, IfOk, OnOk};
ghost use Rattle.std.specs.Prelude.{length, replicate, slice_index_or, true};
ghost use Rattle.dep_graph.specs.Lists.{ListsAll, PutsIn};
ghost use Rattle.dep_graph.specs.Edges.{HasEdge, JoinsNodes};
ghost use Rattle.dep_graph.specs.Marks.{IsMarked, Leaves, IsStuck};
ghost use Rattle.dep_graph.specs.Orders.{TakesLeast};
ghost use Rattle.dep_graph.specs.Counts.{occurrences, HasNone, ListsReady, CountsDown};

use crate::Graph;
use crate::marks::Marks;
use crate::ready::Ready;
use heat_value::Seq;
use std::alloc::AllocError;

/// Takes away nodes while one is ready, the least first, and lists them.
pub(crate) fn take_away(graph: &Graph, left: &mut Marks) -> Result<Seq<u32>, AllocError>
    requires all { left.old ≡ replicate (length graph.now) true }
    requires joins { JoinsNodes graph.now }
    ensures size { length left.new ≡ length graph.now }
    ensures taken { IfOk result (TakesLeast (HasEdge graph.now) (length graph.now)) }
    ensures left { IfOk result (λ taken. Leaves taken left.new) }
    ensures stuck { OnOk result (IsStuck (HasEdge graph.now) left.new) }
{
    let mut taken = Seq::new(graph.allocator());
    let mut counts = graph.pred_counts()?;
    let mut ready = without_preds(graph, counts.as_slice())?;
    while let Some(node) = ready.take_least() {
        taken.push(node)?;
        left.put(node, false);
        count_down(graph.succs(node), left.as_slice(), &mut counts, &mut ready)?;
    }
    Ok(taken)
}

// The nodes whose count is none at first.
fn without_preds(graph: &Graph, counts: &[usize]) -> Result<Ready, AllocError>
    requires { length counts.now ≡ length graph.now }
    ensures { IfOk result (ListsAll (HasNone counts.now)) }
{
    let mut ready = Ready::new(graph.allocator());
    for node in 0..graph.size() {
        put_ready(node, counts[node as usize], &mut ready)?;
    }
    Ok(ready)
}

// Puts a node in where its count is none.
fn put_ready(node: u32, count: usize, ready: &mut Ready) -> Result<(), AllocError>
    ensures none { OnOk result (count ≡ 0 → PutsIn ready.old node ready.new) }
    ensures some { OnOk result (0 < count → ready.new ≡ ready.old) }
{
    if count > 0 {
        return Ok(());
    }
    ready.insert(node)?;
    Ok(())
}

// Counts down each of the nodes by one; those that come to none are ready.
fn count_down(
    nodes: &[u32],
    left: &[bool],
    counts: &mut Vec<usize>,
    ready: &mut Ready,
) -> Result<(), AllocError>
    requires within { All (λ node. node < length counts.old.items) nodes.now }
    requires marked { All (λ node. IsMarked left.now node) nodes.now }
    requires enough { (node : ℕ) → occurrences node nodes.now ≤ slice_index_or counts.old.items node 0 }
    requires ready { ListsReady left.now counts.old.items ready.old }
    ensures counted { OnOk result (CountsDown nodes.now counts.old.items counts.new.items) }
    ensures ready { OnOk result (ListsReady left.now counts.new.items ready.new) }
{
    for node in nodes {
        count_one(*node, left, counts, ready)?;
    }
    Ok(())
}

// Counts down one node, which is ready where its count comes to none.
fn count_one(
    node: u32,
    left: &[bool],
    counts: &mut Vec<usize>,
    ready: &mut Ready,
) -> Result<(), AllocError>
    requires within { node < length counts.old.items }
    requires marked { IsMarked left.now node }
    requires some { 0 < slice_index_or counts.old.items node 0 }
    requires ready { ListsReady left.now counts.old.items ready.old }
    ensures counted { OnOk result (CountsDown (node ∷ []) counts.old.items counts.new.items) }
    ensures ready { OnOk result (ListsReady left.now counts.new.items ready.new) }
{
    let count = counts[node as usize] - 1;
    counts[node as usize] = count;
    put_ready(node, count, ready)?;
    Ok(())
}
