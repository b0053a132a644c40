//! A traversal's graph as the state keeps it: its nodes in order, and edges between their places.

use heat_plan::{ResName, RowNo};
use heat_value::{Equals, Seq, TryCopy};
use std::alloc::AllocError;

/// What is done at a node: the update of an item, with the row chosen for it, or a row's clean-up.
#[derive(Debug, Drop)]
pub enum Node {
    U(ResName, RowNo),
    C(RowNo),
}

/// Nodes, and edges from a node to one behind it, by their places.
#[derive(Debug)]
pub struct TravGraph {
    pub nodes: Seq<Node>,
    pub edges: Seq<(u32, u32)>,
}

impl Drop for TravGraph {
    fn drop(self) {
        let TravGraph { nodes: _, edges: _ } = self;
    }
}

impl TryCopy for Node {
    fn copy(&self) -> Result<Node, AllocError> {
        match self {
            Node::U(name, row) => Ok(Node::U(name.copy()?, *row)),
            Node::C(row) => Ok(Node::C(*row)),
        }
    }
}

impl TryCopy for TravGraph {
    fn copy(&self) -> Result<TravGraph, AllocError> {
        let edges = Vec::from_slice(self.edges.allocator(), self.edges.as_slice())?;
        Ok(TravGraph {
            nodes: self.nodes.copy()?,
            edges: Seq::from_vec(edges),
        })
    }
}

impl Equals for Node {
    fn equals(&self, other: &Node) -> bool {
        match (self, other) {
            (Node::U(name, row), Node::U(its_name, its_row)) => {
                name.equals(its_name) && *row == *its_row
            }
            (Node::C(row), Node::C(its_row)) => *row == *its_row,
            _ => false,
        }
    }
}

impl Equals for TravGraph {
    fn equals(&self, other: &TravGraph) -> bool {
        self.nodes.equals(&other.nodes) && self.edges.equals(&other.edges)
    }
}
