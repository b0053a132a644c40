//! The points of a graph's nodes alone, without the nodes before them.
ghost use Rattle.std.specs.Prelude.{◌≡◌, [], IfOk, option_map, slice_get, slice_set};
ghost use Rattle.sync_points.specs.Numbers.{fresh_points};
ghost use Rattle.sync_points.specs.Points.{own_points};

use crate::Point;
use crate::table::SyncPoints;
use heat_plan::{Equals, Seq, StackName, TryCopy};
use std::alloc::{AllocError, Global};
use std::marker::Model;

/// A point for each node of a graph, at the node's place.
#[derive(Debug, Drop)]
pub struct NodePoints {
    points: SyncPoints,
}

impl Model for NodePoints {
    ghost use Rattle.std.specs.Prelude.{List};
    ghost use Rattle.sync_points.specs.declared.point.Point.{Point};
    ghost use Rattle.std.specs.Coded.{codes};
    ghost use Rattle.heat_plan.specs.Code.{data_code, members_code};

    ghost Value = { List Point };

    ghost coded = { Prim.hlevel (codes, data_code, members_code) };

    ghost use Rattle.sync_points.specs.Points.{own_points};

    ghost view = { λ n. own_points n.points };
}

impl NodePoints {
    /// No point.
    pub fn none(alloc: Global) -> NodePoints
        ensures { result ≡ [] }
    {
        NodePoints {
            points: SyncPoints::none(alloc),
        }
    }

    /// A point without inputs for each node of a stack's graph, whose predecessors are given.
    pub fn new(
        alloc: Global,
        stack: &StackName,
        preds: &[Seq<u32>],
    ) -> Result<NodePoints, AllocError>
        ensures { IfOk result (λ points. points ≡ own_points (fresh_points stack.now 0 preds.now)) }
    {
        Ok(NodePoints {
            points: SyncPoints::new(alloc, stack, preds)?,
        })
    }

    /// The node's point; none where the graph has no such node.
    pub fn get(&self, node: usize) -> Option<&Point>
        ensures { option_map (λ p. p.now) result ≡ slice_get self.now node }
    {
        self.points.at(node)
    }

    /// Writes a point over the one of its node, if there is one, without memory.
    pub fn set(&mut self, point: Point)
        ensures { self.new ≡ slice_set self.old point.node point }
    {
        self.points.put(point);
    }
}

impl TryCopy for NodePoints {
    fn copy(&self) -> Result<NodePoints, AllocError> {
        Ok(NodePoints {
            points: self.points.copy()?,
        })
    }
}

impl Equals for NodePoints {
    fn equals(&self, other: &NodePoints) -> bool {
        self.points.has_same_points(&other.points)
    }
}
