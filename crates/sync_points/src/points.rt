//! The points of one stack, as those above them use them.
ghost use Rattle.std.specs.Prelude.{◌≡◌, List, Some, IsSome, IfOk, OnOk, OnErr, option_map};
ghost use Rattle.sync_points.specs.declared.sync_point.SyncPoint.{SyncPoint};
ghost use Rattle.sync_points.specs.Points.{IsEdge, finished, point_at, put_point, told, with_input, written};

use crate::sync_point::{Gathered, SyncPoint};
use crate::{Input, SharedInput};
use heat_plan::Seq;
use std::alloc::AllocError;

/// A point for each node of a graph.
pub trait Points {
    /// The points.
    ghost content: { Self → List SyncPoint };

    /// The node's point; none where the graph has no such node.
    fn point(&self, node: u32) -> Option<&SyncPoint>
        ensures { option_map (λ p. p.now) result ≡ point_at (content self.now) node };

    /// Gathers the input that a node gives to one behind it, unless it gave one already.
    fn gather(&mut self, node: u32, from: u32, input: Input) -> Result<Gathered, AllocError>
        requires { IsEdge (content self.old) from node }
        ensures points { OnOk result ((p : SyncPoint) → point_at (content self.old) node ≡ Some p
            → content self.new ≡ put_point (with_input from input p) (content self.old)) }
        ensures told { IfOk result (λ gathered. (p : SyncPoint) → point_at (content self.old) node ≡ Some p
            → gathered ≡ told from input p) }
        ensures same { OnErr result (content self.new ≡ content self.old) };

    /// What the node was given.
    fn inputs(&self, node: u32) -> &[SharedInput]
        requires { IsSome (point_at (content self.now) node) }
        ensures { option_map (λ p. p.point.inputs) (point_at (content self.now) node) ≡ Some result.now };

    /// The node is done.
    fn finish(&mut self, node: u32)
        requires { IsSome (point_at (content self.old) node) }
        ensures { (p : SyncPoint) → point_at (content self.old) node ≡ Some p
            → content self.new ≡ put_point (finished p) (content self.old) };

    /// Whether the node is done.
    fn is_done(&self, node: u32) -> bool
        requires { IsSome (point_at (content self.now) node) }
        ensures { option_map (λ p. p.point.done) (point_at (content self.now) node) ≡ Some result };

    /// Writes other inputs for the node, and whether it is done, without memory.
    fn set(&mut self, node: u32, inputs: Seq<SharedInput>, done: bool)
        requires { IsSome (point_at (content self.old) node) }
        ensures { (p : SyncPoint) → point_at (content self.old) node ≡ Some p
            → content self.new ≡ put_point (written inputs done p) (content self.old) };
}
