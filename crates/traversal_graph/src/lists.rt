//! The lists that a traversal reads from its graph, each rising.

ghost use Rattle.std.specs.Prelude.{◌≡◌, ◌<◌, ℕ, [], IfOk, OnOk, OnErr, length, replicate};
ghost use Rattle.std.specs.Prelude.{slice_index_or, slice_set, true};
ghost use Rattle.dep_graph.specs.Lists.{ListsAll};
ghost use Rattle.dep_graph.specs.Marks.{MarksAll};
ghost use Rattle.traversal_graph.specs.Builds.{Joins};
ghost use Rattle.traversal_graph.specs.Neighbours.{AreRising, ListsPreds, PutsPred};

use crate::TravGraph;
use dep_graph::{put_in, with_node};
use heat_value::Seq;
use std::alloc::{AllocError, Global};

impl TravGraph {
    /// The nodes into which no edge leads, rising.
    pub fn leaves(&self) -> Result<Seq<u32>, AllocError>
        ensures { IfOk result (ListsAll (λ node.
            (node < length self.now.nodes) × ((before : ℕ) → ¬ Joins self.now.edges before node))) }
    {
        let Ok(count) = u32::try_from(self.nodes.len()) else {
            return Err(AllocError);
        };
        let mut leaves = Seq::new(self.nodes.allocator());
        let behind = marks_behind(self.nodes.allocator(), self.edges.as_slice(), count)?;
        for node in 0..count {
            if !behind[node as usize] {
                leaves.push(node)?;
            }
        }
        Ok(leaves)
    }

    /// The nodes from which an edge leads to this one, rising.
    pub fn preds(&self, node: u32) -> Result<Seq<u32>, AllocError>
        requires { node < length self.now.nodes }
        ensures { IfOk result (ListsAll (λ before. Joins self.now.edges before node)) }
    {
        let mut preds = Seq::new(self.edges.allocator());
        for (before, after) in self.edges.as_slice() {
            if *after == node {
                put_in(&mut preds, *before)?;
            }
        }
        Ok(preds)
    }

    /// For each node the nodes from which an edge leads to it, rising, by one pass over the edges.
    pub fn all_preds(&self) -> Result<Seq<Seq<u32>>, AllocError>
        ensures { IfOk result (ListsPreds self.now.edges (length self.now.nodes)) }
    {
        let mut all = empty_lists(self.nodes.allocator(), self.nodes.len())?;
        for (before, after) in self.edges.as_slice() {
            put_pred(&mut all, *before, *after)?;
        }
        Ok(all)
    }

    /// The nodes to which an edge leads from this one, rising.
    pub fn succs(&self, node: u32) -> Result<Seq<u32>, AllocError>
        requires { node < length self.now.nodes }
        ensures { IfOk result (ListsAll (λ after. Joins self.now.edges node after)) }
    {
        let mut succs = Seq::new(self.edges.allocator());
        for (before, after) in self.edges.as_slice() {
            if *before == node {
                put_in(&mut succs, *after)?;
            }
        }
        Ok(succs)
    }
}

// A mark on each node into which an edge leads, by one pass over the edges.
fn marks_behind(alloc: Global, edges: &[(u32, u32)], count: u32) -> Result<Vec<bool>, AllocError>
    ensures size { IfOk result (λ marks. length marks.items ≡ count) }
    ensures exact { IfOk result (λ marks.
        MarksAll (λ node. (before : ℕ) × Joins edges.now before node) marks.items) }
{
    let mut marks = vec![in alloc; false; count as usize]?;
    for (_, after) in edges {
        if *after < count {
            mark(&mut marks, *after as usize);
        }
    }
    Ok(marks)
}

// Puts a mark on a node.
fn mark(marks: &mut Vec<bool>, at: usize)
    requires { at < length marks.old.items }
    ensures { marks.new.items ≡ slice_set marks.old.items at true }
{
    marks[at] = true;
}

// So many lists without nodes.
fn empty_lists(alloc: Global, count: usize) -> Result<Seq<Seq<u32>>, AllocError>
    ensures { IfOk result (λ all. all ≡ replicate count []) }
{
    let mut all = Seq::with_capacity(alloc, count)?;
    for _ in 0..count {
        all.push(Seq::new(alloc))?;
    }
    Ok(all)
}

// Puts a node in among another's predecessors, where there is such a list.
fn put_pred(all: &mut Seq<Seq<u32>>, before: u32, after: u32) -> Result<(), AllocError>
    requires { AreRising all.old }
    ensures { OnOk result (PutsPred before after all.old all.new) }
{
    let at = after as usize;
    if at < all.len() {
        let preds = with_node(&all.as_slice()[at], before)?;
        all.set(at, preds);
    }
    Ok(())
}
