//! Marks on nodes, and the first of a list, or of all, that has one.

ghost use Rattle.std.specs.Prelude.{◌≡◌, ◌↔◌, ◌<◌, ◌^◌, ℕ, All, Contains, IsTrue, IfOk};
ghost use Rattle.std.specs.Prelude.{MatchOption, length, replicate, slice_set};
ghost use Rattle.dep_graph.specs.Lists.{IsRising, IsLeast};
ghost use Rattle.dep_graph.specs.Marks.{IsMarked};

use std::alloc::{AllocError, Global};
use std::marker::Model;

/// A mark or none on each node.
#[derive(Drop)]
pub struct Marks {
    all: Vec<bool>,
}

impl Model for Marks {
    ghost use Rattle.std.specs.Prelude.{List, Bool};

    ghost Value = { List Bool };

    ghost view = { λ marks. marks.all.items };
}

impl Marks {
    /// The same mark on so many nodes.
    pub(crate) fn new(alloc: Global, size: u32, mark: bool) -> Result<Marks, AllocError>
        ensures { IfOk result (λ marks. marks ≡ replicate size mark) }
    {
        Ok(Marks {
            all: vec![in alloc; mark; size as usize]?,
        })
    }

    /// Whether a node has its mark; a number past the nodes has none.
    pub fn has(&self, node: u32) -> bool
        ensures { IsTrue result ↔ IsMarked self.now node }
    {
        match self.all.get(node as usize) {
            Some(mark) => *mark,
            None => false,
        }
    }

    /// The marks themselves.
    pub(crate) fn as_slice(&self) -> &[bool]
        ensures { result.now ≡ self.now }
    {
        self.all.as_slice()
    }

    /// Puts a mark on a node, or takes it off.
    pub(crate) fn put(&mut self, node: u32, mark: bool)
        requires { node < length self.old }
        ensures { self.new ≡ slice_set self.old node mark }
    {
        self.all[node as usize] = mark;
    }
}

/// The least node of a rising list that has its mark.
pub(crate) fn first_marked(nodes: &[u32], marks: &[bool]) -> Option<u32>
    requires rising { IsRising nodes.now }
    requires within { All (λ node. node < length marks.now) nodes.now }
    ensures { MatchOption result
        ((node : ℕ) → Contains nodes.now node → ¬ IsMarked marks.now node)
        (λ least. IsLeast (λ node. Contains nodes.now node × IsMarked marks.now node) least) }
{
    for node in nodes {
        if marks[*node as usize] {
            return Some(*node);
        }
    }
    None
}

/// The least node that has its mark.
pub(crate) fn least_marked(marks: &[bool]) -> Option<u32>
    requires { length marks.now < 2 ^ 32 }
    ensures { MatchOption result
        ((node : ℕ) → ¬ IsMarked marks.now node)
        (λ least. (least < length marks.now) × IsLeast (IsMarked marks.now) least) }
{
    for (node, mark) in marks.iter().enumerate() {
        if *mark {
            return Some(node as u32);
        }
    }
    None
}
