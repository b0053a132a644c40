//! A graph: each node's predecessors and successors, both rising.

ghost use Rattle.std.specs.Prelude.{◌≡◌, ◌<◌, ◌≤◌, ℕ, List, [], length, map, replicate, IfOk, OnOk};
ghost use Rattle.std.specs.Prelude.{OnErr, MatchOption, Contains, insert, remove, slice_set, slice_index_or};
ghost use Rattle.dep_graph.specs.Lists.{IsRising, ListsAll, PutsIn};
ghost use Rattle.dep_graph.specs.Paths.{IsAcyclic};
ghost use Rattle.dep_graph.specs.Edges.{HasEdge, JoinsNodes, IsBare, AddsEdge};

use crate::put_in;
use heat_value::Seq;
use std::alloc::{AllocError, Global};
use std::marker::Model;

/// Nodes 0 to n - 1 and a set of edges between them.
pub struct Graph {
    preds: Vec<Seq<u32>>,
    succs: Vec<Seq<u32>>,
}

impl Drop for Graph {
    fn drop(self) {
        let Graph { preds: _, succs: _ } = self;
    }
}

impl Model for Graph {
    ghost use Rattle.dep_graph.specs.Edges.{Links, IsTwofold};

    ghost Value = { Links };

    ghost view = { λ graph. graph.preds.items };

    ghost invariant = { λ graph. IsTwofold graph.preds.items graph.succs.items };
}

impl Graph {
    /// A graph of `n` nodes without edges.
    pub fn new(alloc: Global, n: u32) -> Result<Graph, AllocError>
        ensures bare { IfOk result (IsBare n) }
        ensures acyclic { IfOk result (λ graph. IsAcyclic (HasEdge graph)) }
    {
        Ok(Graph {
            preds: empty_lists(alloc, n)?,
            succs: empty_lists(alloc, n)?,
        })
    }

    /// How many nodes there are.
    pub fn size(&self) -> u32
        ensures size { result ≡ length self.now }
        ensures joins { JoinsNodes self.now }
    {
        self.preds.len() as u32
    }

    /// The allocator that the graph was made with.
    pub fn allocator(&self) -> Global {
        *self.preds.allocator()
    }

    /// The nodes with an edge to this one, rising.
    pub fn preds(&self, node: u32) -> &[u32]
        requires { node < length self.now }
        ensures exact { ListsAll (λ pred. HasEdge self.now pred node) result.now }
        ensures joins { JoinsNodes self.now }
    {
        self.preds[node as usize].as_slice()
    }

    /// The nodes to which this one has an edge, rising.
    pub fn succs(&self, node: u32) -> &[u32]
        requires { node < length self.now }
        ensures exact { ListsAll (λ succ. HasEdge self.now node succ) result.now }
        ensures joins { JoinsNodes self.now }
    {
        self.succs[node as usize].as_slice()
    }

    /// How many predecessors each node has.
    pub(crate) fn pred_counts(&self) -> Result<Vec<usize>, AllocError>
        ensures counts { IfOk result (λ counts. counts.items ≡ map length self.now) }
        ensures rising { (node : ℕ) → IsRising (slice_index_or self.now node []) }
    {
        let mut counts = Vec::with_capacity(self.allocator(), self.preds.len())?;
        for preds in &self.preds {
            counts.push(preds.len())?;
        }
        Ok(counts)
    }

    /// Adds an edge, unless it is there.
    pub fn add_edge(&mut self, before: u32, after: u32) -> Result<(), AllocError>
        requires before { before < length self.old }
        requires after { after < length self.old }
        ensures ok { OnOk result (AddsEdge before after self.old self.new) }
        ensures err { OnErr result (self.new ≡ self.old) }
    {
        let Some(place) = place_for(&self.preds[after as usize], before) else {
            return Ok(());
        };
        put_at(&mut self.preds, after, place, before)?;
        if let Err(failed) = put_node(&mut self.succs, before, after) {
            // Want of memory changes nothing, so the first list gives the node back.
            take_out(&mut self.preds, after, place);
            return Err(failed);
        }
        Ok(())
    }
}

// Where a node goes into a rising list that doesn't have it.
fn place_for(list: &Seq<u32>, node: u32) -> Option<usize>
    requires { IsRising list.now }
    ensures { MatchOption result
        (Contains list.now node)
        (λ place. (place ≤ length list.now) × PutsIn list.now node (insert list.now place node)) }
{
    match list.as_slice().binary_search(&node) {
        Ok(_) => None,
        Err(place) => Some(place),
    }
}

// Puts a node into one of the lists, before the one at this place.
fn put_at(lists: &mut Vec<Seq<u32>>, at: u32, place: usize, node: u32) -> Result<(), AllocError>
    requires at { at < length lists.old.items }
    requires place { place ≤ length (slice_index_or lists.old.items at []) }
    ensures ok { OnOk result (lists.new.items
        ≡ slice_set lists.old.items at (insert (slice_index_or lists.old.items at []) place node)) }
    ensures err { OnErr result (lists.new.items ≡ lists.old.items) }
{
    lists[at as usize].insert(place, node)
}

// Puts a node into one of the lists at its place, unless it is there.
fn put_node(lists: &mut Vec<Seq<u32>>, at: u32, node: u32) -> Result<(), AllocError>
    requires at { at < length lists.old.items }
    requires rising { IsRising (slice_index_or lists.old.items at []) }
    ensures ok { OnOk result ((list : List ℕ) × PutsIn (slice_index_or lists.old.items at []) node list
        × (lists.new.items ≡ slice_set lists.old.items at list)) }
    ensures err { OnErr result (lists.new.items ≡ lists.old.items) }
{
    put_in(&mut lists[at as usize], node)
}

// Takes the node at this place out of one of the lists.
fn take_out(lists: &mut Vec<Seq<u32>>, at: u32, place: usize)
    requires at { at < length lists.old.items }
    requires place { place < length (slice_index_or lists.old.items at []) }
    ensures { lists.new.items
        ≡ slice_set lists.old.items at (remove (slice_index_or lists.old.items at []) place) }
{
    let _node = lists[at as usize].remove(place);
}

// So many lists without nodes.
fn empty_lists(alloc: Global, n: u32) -> Result<Vec<Seq<u32>>, AllocError>
    ensures { IfOk result (λ lists. lists.items ≡ replicate n []) }
{
    let mut lists = Vec::with_capacity(alloc, n as usize)?;
    for _ in 0..n {
        lists.push(Seq::new(alloc))?;
    }
    Ok(lists)
}
