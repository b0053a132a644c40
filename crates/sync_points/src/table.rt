//! The indexed form of the points.
ghost use Rattle.std.specs.Prelude.{◌≡◌, ◌<◌, ◌↔◌, [], Some, IsSome, IsTrue, IfOk, IfSome};
ghost use Rattle.std.specs.Prelude.{nat_eq, length, option_map, slice_get, slice_set};
ghost use Rattle.std.specs.List.{position_from};
ghost use Rattle.sync_points.specs.declared.sync_point.SyncPoint.{SyncPoint};
ghost use Rattle.sync_points.specs.Points.{own_points, point_at};
ghost use Rattle.sync_points.specs.Numbers.{fresh_points};

use crate::counted::CountedPoint;
use crate::points::Points;
use crate::sync_point::{Gathered, SyncPoint};
use crate::{Input, Point, SharedInput};
use heat_plan::{Equals, Seq, StackName, TryCopy};
use std::alloc::{AllocError, Global};
use std::marker::Model;

/// A point for each node of a graph, at the node's place.
#[derive(Debug, Drop)]
pub struct SyncPoints {
    points: Vec<CountedPoint>,
}

impl Model for SyncPoints {
    ghost use Rattle.std.specs.Prelude.{List};
    ghost use Rattle.sync_points.specs.declared.sync_point.SyncPoint.{SyncPoint};
    ghost use Rattle.std.specs.Coded.{codes};
    ghost use Rattle.heat_plan.specs.Code.{data_code, members_code};

    ghost Value = { List SyncPoint };

    ghost coded = { Prim.hlevel (codes, data_code, members_code) };

    ghost view = { λ p. p.points.items };

    ghost use Rattle.sync_points.specs.Numbers.{AreNumbered};

    ghost invariant = { λ p. AreNumbered 0 p.points.items };
}

impl SyncPoints {
    /// No point.
    pub fn none(alloc: Global) -> SyncPoints
        ensures { result ≡ [] }
    {
        SyncPoints {
            points: Vec::new(alloc),
        }
    }

    /// A point without inputs for each node of a stack's graph, whose predecessors are given.
    pub fn new(
        alloc: Global,
        stack: &StackName,
        preds: &[Seq<u32>],
    ) -> Result<SyncPoints, AllocError>
        ensures { IfOk result (λ points. points ≡ fresh_points stack.now 0 preds.now) }
    {
        let mut points = Vec::with_capacity(alloc, preds.len())?;
        for (place, before) in preds.iter().enumerate() {
            let point = SyncPoint::fresh(alloc, stack, place, before.as_slice())?;
            points.push(CountedPoint::new(point))?;
        }
        Ok(SyncPoints { points })
    }

    /// The point of the node at this place; none where the graph has no such node.
    pub(crate) fn at(&self, place: usize) -> Option<&Point>
        ensures { option_map (λ p. p.now) result ≡ slice_get (own_points self.now) place }
    {
        if place < self.points.len() {
            return Some(&self.points[place].point().point);
        }
        None
    }

    /// Writes a point over the one of its node, if there is one, without memory.
    pub(crate) fn put(&mut self, point: Point)
        ensures { own_points self.new ≡ slice_set (own_points self.old) point.node point }
    {
        let place = point.node as usize;
        if place < self.points.len() {
            self.points[place].replace(point);
        }
    }

    /// Whether the points are the other's, whatever nodes stand before them.
    pub(crate) fn has_same_points(&self, other: &SyncPoints) -> bool
        ensures { IsTrue result ↔ (own_points self.now ≡ own_points other.now) }
    {
        if self.points.len() != other.points.len() {
            return false;
        }
        for i in 0..self.points.len() {
            let its = &other.points[i].point().point;
            if !self.points[i].point().point.equals(its) {
                return false;
            }
        }
        true
    }

    // The place of the node's point; none where the graph has no such node.
    fn find(&self, node: u32) -> Option<usize>
        ensures place { result ≡ position_from (λ (x : SyncPoint). nat_eq x.point.node node) 0 self.now }
        ensures within { IfSome result (λ p. p < length self.now) }
    {
        let place = node as usize;
        if place < self.points.len() {
            return Some(place);
        }
        None
    }

    // The place of the node's point.
    fn place(&self, node: u32) -> usize
        requires { IsSome (point_at self.now node) }
        ensures place { position_from (λ (x : SyncPoint). nat_eq x.point.node node) 0 self.now ≡ Some result }
        ensures within { result < length self.now }
    {
        match self.find(node) {
            Some(place) => place,
            None => unreachable!(),
        }
    }
}

impl Points for SyncPoints {
    ghost content = { λ p. p };

    fn point(&self, node: u32) -> Option<&SyncPoint> {
        match self.find(node) {
            Some(place) => Some(self.points[place].point()),
            None => None,
        }
    }

    fn gather(&mut self, node: u32, from: u32, input: Input) -> Result<Gathered, AllocError> {
        let place = self.place(node);
        self.points[place].gather(from, input)
    }

    fn inputs(&self, node: u32) -> &[SharedInput] {
        let place = self.place(node);
        self.points[place].point().point.inputs.as_slice()
    }

    fn finish(&mut self, node: u32) {
        let place = self.place(node);
        self.points[place].finish();
    }

    fn is_done(&self, node: u32) -> bool {
        let place = self.place(node);
        self.points[place].point().point.done
    }

    fn set(&mut self, node: u32, inputs: Seq<SharedInput>, done: bool) {
        let place = self.place(node);
        self.points[place].write(inputs, done);
    }
}

impl TryCopy for SyncPoints {
    fn copy(&self) -> Result<SyncPoints, AllocError> {
        let mut points = Vec::with_capacity(*self.points.allocator(), self.points.len())?;
        for point in &self.points {
            points.push(point.copy()?)?;
        }
        Ok(SyncPoints { points })
    }
}

impl Equals for SyncPoints {
    fn equals(&self, other: &SyncPoints) -> bool {
        if self.points.len() != other.points.len() {
            return false;
        }
        for i in 0..self.points.len() {
            if !self.points[i].equals(&other.points[i]) {
                return false;
            }
        }
        true
    }
}
