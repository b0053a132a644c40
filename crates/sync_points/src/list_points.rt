//! The plain form of the points: a list that is read from the first point to the last.
ghost use Rattle.std.specs.Prelude.{◌≡◌, ◌<◌, Some, IsSome, IfOk, IfSome, nat_eq, length};
ghost use Rattle.std.specs.List.{position_from};
ghost use Rattle.sync_points.specs.declared.sync_point.SyncPoint.{SyncPoint};
ghost use Rattle.sync_points.specs.Points.{point_at};
ghost use Rattle.sync_points.specs.Numbers.{fresh_points};

use crate::points::Points;
use crate::sync_point::{Gathered, SyncPoint};
use crate::{Input, SharedInput};
use heat_plan::{Seq, StackName};
use std::alloc::{AllocError, Global};
use std::marker::Model;

/// A point for each node of a graph.
#[derive(Debug, Drop)]
pub struct ListPoints {
    points: Vec<SyncPoint>,
}

impl Model for ListPoints {
    ghost use Rattle.std.specs.Prelude.{List};
    ghost use Rattle.sync_points.specs.declared.sync_point.SyncPoint.{SyncPoint};
    ghost use Rattle.std.specs.Coded.{codes};
    ghost use Rattle.heat_plan.specs.Code.{data_code, members_code};

    ghost Value = { List SyncPoint };

    ghost coded = { Prim.hlevel (codes, data_code, members_code) };

    ghost view = { λ p. p.points.items };
}

impl ListPoints {
    /// A point without inputs for each node of a stack's graph, whose predecessors are given.
    pub fn new(
        alloc: Global,
        stack: &StackName,
        preds: &[Seq<u32>],
    ) -> Result<ListPoints, AllocError>
        ensures { IfOk result (λ points. points ≡ fresh_points stack.now 0 preds.now) }
    {
        let mut points = Vec::with_capacity(alloc, preds.len())?;
        for (place, before) in preds.iter().enumerate() {
            let point = SyncPoint::fresh(alloc, stack, place, before.as_slice())?;
            points.push(point)?;
        }
        Ok(ListPoints { points })
    }

    // The place of the node's point; none where the graph has no such node.
    fn find(&self, node: u32) -> Option<usize>
        ensures place { result ≡ position_from (λ (x : SyncPoint). nat_eq x.point.node node) 0 self.now }
        ensures within { IfSome result (λ p. p < length self.now) }
    {
        for (i, point) in self.points.iter().enumerate() {
            if point.point.node == node {
                return Some(i);
            }
        }
        None
    }

    // The place of the node's point.
    fn place(&self, node: u32) -> usize
        requires { IsSome (point_at self.now node) }
        ensures place { position_from (λ (x : SyncPoint). nat_eq x.point.node node) 0 self.now ≡ Some result }
        ensures within { result < length self.now }
    {
        match self.find(node) {
            Some(place) => place,
            None => unreachable!(),
        }
    }
}

impl Points for ListPoints {
    ghost content = { λ p. p };

    fn point(&self, node: u32) -> Option<&SyncPoint> {
        match self.find(node) {
            Some(place) => Some(&self.points[place]),
            None => None,
        }
    }

    fn gather(&mut self, node: u32, from: u32, input: Input) -> Result<Gathered, AllocError> {
        let place = self.place(node);
        let point = &mut self.points[place];
        let new = point.gather(from, input)?;
        let full = point.is_full();
        Ok(Gathered { new, full })
    }

    fn inputs(&self, node: u32) -> &[SharedInput] {
        let place = self.place(node);
        self.points[place].point.inputs.as_slice()
    }

    fn finish(&mut self, node: u32) {
        let place = self.place(node);
        self.points[place].point.done = true;
    }

    fn is_done(&self, node: u32) -> bool {
        let place = self.place(node);
        self.points[place].point.done
    }

    fn set(&mut self, node: u32, inputs: Seq<SharedInput>, done: bool) {
        let place = self.place(node);
        self.points[place].write(inputs, done);
    }
}
