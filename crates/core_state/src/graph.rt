//! The graph of a stack's newest traversal, with what each node was given.
ghost use Rattle.std.specs.Prelude.{◌≡◌, IfOk};
ghost use Rattle.core_state.specs.Graphs.{fresh_points};

use heat_plan::StackName;
use heat_value::{Equals, TryCopy};
use keyed_table::Keyed;
use std::alloc::{AllocError, Global};
use sync_points::NodePoints;
use traversal_graph::TravGraph;

/// A stack's newest graph, with a point for each of its nodes.
#[derive(Debug)]
pub struct Graph {
    pub stack: StackName,
    pub graph: TravGraph,
    pub points: NodePoints,
}

impl Drop for Graph {
    fn drop(self) {
        let Graph {
            stack: _,
            graph: _,
            points: _,
        } = self;
    }
}

/// A point for each node of a graph on which nothing has been done.
pub(crate) fn fresh_points(
    alloc: Global,
    stack: &StackName,
    graph: &TravGraph,
) -> Result<NodePoints, AllocError>
    ensures { IfOk result (λ points. points ≡ fresh_points stack.now 0 graph.now.nodes) }
{
    let preds = graph.all_preds()?;
    NodePoints::new(alloc, stack, preds.as_slice())
}

impl Keyed for Graph {
    type Key = StackName;

    ghost use Rattle.std.specs.Str.{bytes_eq};
    ghost use Rattle.keyed_table.specs.Sortings.{text_below};
    ghost use Rattle.keyed_table.proofs.Sortings.{text_sorting};

    ghost key_of = { λ g. g.stack };

    ghost same = { bytes_eq };

    ghost below = { text_below };

    fn key(&self) -> &StackName {
        &self.stack
    }

    fn has_key(&self, key: &StackName) -> bool {
        self.stack == *key
    }

    fn is_below(&self, key: &StackName) -> bool {
        self.stack.cmp(key).is_lt()
    }

    ghost sorts = { text_sorting };
}

impl TryCopy for Graph {
    fn copy(&self) -> Result<Graph, AllocError> {
        Ok(Graph {
            stack: self.stack.copy()?,
            graph: self.graph.copy()?,
            points: self.points.copy()?,
        })
    }
}

impl Equals for Graph {
    fn equals(&self, other: &Graph) -> bool {
        self.stack.equals(&other.stack)
            && self.graph.equals(&other.graph)
            && self.points.equals(&other.points)
    }
}
