//! A point that counts its edges without an input.
ghost use Rattle.std.specs.Prelude.{◌≡◌, IfOk, OnOk, OnErr};
ghost use Rattle.sync_points.specs.declared.sync_point.SyncPoint.{SyncPoint};
ghost use Rattle.sync_points.specs.Points.{finished, missing_of, replaced, told, with_input, written};

use crate::sync_point::{Gathered, SyncPoint};
use crate::{Input, Point, SharedInput};
use heat_plan::{Equals, Seq, TryCopy};
use std::alloc::AllocError;
use std::marker::Model;

/// A point, and how many edges to its node have no input, if that was counted.
#[derive(Debug, Drop)]
pub(crate) struct CountedPoint {
    point: SyncPoint,
    missing: Option<usize>,
}

impl Model for CountedPoint {
    ghost use Rattle.sync_points.specs.declared.sync_point.SyncPoint.{SyncPoint};
    ghost use Rattle.std.specs.Coded.{codes};
    ghost use Rattle.heat_plan.specs.Code.{data_code, members_code};

    ghost Value = { SyncPoint };

    ghost coded = { Prim.hlevel (codes, data_code, members_code) };

    ghost view = { λ c. c.point };

    ghost use Rattle.std.specs.Prelude.{◌≡◌, IfSome};
    ghost use Rattle.sync_points.specs.Points.{missing_of};

    ghost invariant = { λ c. IfSome c.missing (λ count. count ≡ missing_of c.point) };
}

impl CountedPoint {
    /// The point, its edges not counted.
    pub(crate) fn new(point: SyncPoint) -> CountedPoint
        ensures { result ≡ point }
    {
        CountedPoint {
            point,
            missing: None,
        }
    }

    /// The point.
    pub(crate) fn point(&self) -> &SyncPoint
        ensures { result.now ≡ self.now }
    {
        &self.point
    }

    /// Gathers the input that a node gives, unless it gave one already; its edges count as missing no more.
    pub(crate) fn gather(&mut self, from: u32, input: Input) -> Result<Gathered, AllocError>
        ensures point { OnOk result (self.new ≡ with_input from input self.old) }
        ensures told { IfOk result (λ gathered. gathered ≡ told from input self.old) }
        ensures same { OnErr result (self.new ≡ self.old) }
    {
        let missing = self.count();
        let new = self.point.gather(from, input)?;
        if !new {
            self.missing = Some(missing);
            let full = missing == 0;
            return Ok(Gathered { new, full });
        }
        let left = missing - self.point.edges_from(from);
        self.missing = Some(left);
        let full = left == 0;
        Ok(Gathered { new, full })
    }

    // How many edges have no input.
    fn count(&self) -> usize
        ensures { result ≡ missing_of self.now }
    {
        match self.missing {
            Some(missing) => missing,
            None => self.point.missing(),
        }
    }

    /// The node is done.
    pub(crate) fn finish(&mut self)
        ensures { self.new ≡ finished self.old }
    {
        self.point.point.done = true;
    }

    /// Writes other inputs, and whether the node is done.
    pub(crate) fn write(&mut self, inputs: Seq<SharedInput>, done: bool)
        ensures { self.new ≡ written inputs done self.old }
    {
        self.missing = None;
        self.point.write(inputs, done);
    }

    /// Writes another point.
    pub(crate) fn replace(&mut self, point: Point)
        ensures { self.new ≡ replaced point self.old }
    {
        self.missing = None;
        self.point.point = point;
    }
}

impl TryCopy for CountedPoint {
    fn copy(&self) -> Result<CountedPoint, AllocError> {
        Ok(CountedPoint {
            point: self.point.copy()?,
            missing: self.missing,
        })
    }
}

impl Equals for CountedPoint {
    fn equals(&self, other: &CountedPoint) -> bool {
        self.point.equals(&other.point)
    }
}
