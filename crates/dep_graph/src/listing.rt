//! The order of a graph's nodes, or the cycle in its way: nodes are taken away, the least that is
//! ready first; where some are left, a walk back from the least of them meets itself.

ghost use Rattle.std.specs.Prelude.{◌≡◌, ◌<◌, ℕ, IfOk, MatchOption, Contains};
ghost use Rattle.std.specs.Prelude.{length, drop, slice_index};
ghost use Rattle.dep_graph.specs.Lists.{IsLeast};
ghost use Rattle.dep_graph.specs.Edges.{HasEdge, JoinsNodes};
ghost use Rattle.dep_graph.specs.Marks.{IsMarked, MarksAll, IsStuck};
ghost use Rattle.dep_graph.specs.Orders.{IsLeft, FindsCycle};
ghost use Rattle.dep_graph.specs.Answers.{IsOrderAnswer};

use crate::Graph;
use crate::marks::{Marks, first_marked, least_marked};
use crate::taking::take_away;
use heat_value::Seq;
use std::alloc::{AllocError, Global};

/// How a graph's nodes are listed.
#[derive(Debug, Drop)]
pub enum Order {
    /// Each node once, edges forward, the least ready node first.
    Order(Seq<u32>),
    /// Nodes, each of which has an edge from the next, and the last from the first.
    Cycle(Seq<u32>),
}

impl Graph {
    /// An order of the nodes that respects the edges, or the cycle in its way.
    pub fn order(&self) -> Result<Order, AllocError>
        ensures { IfOk result (IsOrderAnswer self.now) }
    {
        let mut left = Marks::new(self.allocator(), self.size(), true)?;
        let taken = take_away(self, &mut left)?;
        match least_marked(left.as_slice()) {
            None => Ok(Order::Order(taken)),
            Some(least) => Ok(Order::Cycle(walked_cycle(self, left.as_slice(), least)?)),
        }
    }
}

// The least predecessor of a node that is left.
fn least_left_pred(graph: &Graph, left: &[bool], node: u32) -> Option<u32>
    requires size { length left.now ≡ length graph.now }
    requires node { node < length graph.now }
    ensures { MatchOption result
        ((pred : ℕ) → HasEdge graph.now pred node → ¬ IsMarked left.now pred)
        (λ least. IsLeast (λ pred. HasEdge graph.now pred node × IsMarked left.now pred) least) }
{
    first_marked(graph.preds(node), left)
}

// The cycle that a walk back from the least node left meets.
fn walked_cycle(graph: &Graph, left: &[bool], least: u32) -> Result<Seq<u32>, AllocError>
    requires size { length left.now ≡ length graph.now }
    requires least { IsLeast (IsMarked left.now) least }
    requires joins { JoinsNodes graph.now }
    requires left { MarksAll (IsLeft (HasEdge graph.now)) left.now }
    requires stuck { IsStuck (HasEdge graph.now) left.now }
    ensures { IfOk result (FindsCycle (HasEdge graph.now)) }
{
    let mut met = Marks::new(graph.allocator(), graph.size(), false)?;
    let mut walk = Seq::new(graph.allocator());
    let mut at = least;
    while !met.has(at) {
        met.put(at, true);
        walk.push(at)?;
        at = step_back(graph, left, at);
    }
    from_node(walk.as_slice(), at, graph.allocator())
}

// The least predecessor left of a node that has one.
fn step_back(graph: &Graph, left: &[bool], node: u32) -> u32
    requires size { length left.now ≡ length graph.now }
    requires marked { IsMarked left.now node }
    requires stuck { IsStuck (HasEdge graph.now) left.now }
    ensures { IsLeast (λ pred. HasEdge graph.now pred node × IsMarked left.now pred) result }
{
    match least_left_pred(graph, left, node) {
        Some(pred) => pred,
        None => unreachable!(),
    }
}

// What stands in a list from a node on.
fn from_node(nodes: &[u32], node: u32, alloc: Global) -> Result<Seq<u32>, AllocError>
    requires { Contains nodes.now node }
    ensures { IfOk result (λ rest. (place : ℕ) × (place < length nodes.now)
        × (slice_index nodes.now place ≡ node) × (rest ≡ drop place nodes.now)) }
{
    match place_of(nodes, node) {
        Some(place) => Ok(Seq::from_vec(Vec::from_slice(alloc, &nodes[place..])?)),
        None => unreachable!(),
    }
}

// Where a node stands in a list, the first place of several.
fn place_of(nodes: &[u32], node: u32) -> Option<usize>
    ensures { MatchOption result
        (¬ Contains nodes.now node)
        (λ place. (place < length nodes.now) × (slice_index nodes.now place ≡ node)) }
{
    for (place, other) in nodes.iter().enumerate() {
        if *other == node {
            return Some(place);
        }
    }
    None
}
