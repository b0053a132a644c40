//! The point of one node, with the nodes before it.
ghost use Rattle.std.specs.Prelude.{◌≡◌, IfOk, OnOk, OnErr, not, nat_eq};
ghost use Rattle.std.specs.List.{count_by};
ghost use Rattle.sync_points.specs.Numbers.{fresh_point};
ghost use Rattle.sync_points.specs.Points.{given, has_from, is_before, is_full, missing_of, with_input, written};

use crate::{Input, Point, SharedInput};
use heat_plan::{Equals, Seq, StackName, TryCopy};
use std::alloc::{AllocError, Global};

/// What one node waits for and was given.
#[derive(Debug)]
pub struct SyncPoint {
    /// What it was given so far, and whether it is done.
    pub point: Point,
    /// The nodes from which an edge leads to it.
    pub preds: Seq<u32>,
}

impl Drop for SyncPoint {
    fn drop(self) {
        let SyncPoint { point: _, preds: _ } = self;
    }
}

/// What a gathering tells: whether the input is a new one, and whether each node before has given one now.
#[derive(Clone, Copy, Debug, PartialEq, Eq)]
pub struct Gathered {
    pub new: bool,
    pub full: bool,
}

impl SyncPoint {
    /// The point of a stack's node that was given nothing, by its place.
    pub(crate) fn fresh(
        alloc: Global,
        stack: &StackName,
        place: usize,
        preds: &[u32],
    ) -> Result<SyncPoint, AllocError>
        ensures { IfOk result (λ p. p ≡ fresh_point stack.now place preds.now) }
    {
        let Ok(node) = u32::try_from(place) else {
            return Err(AllocError);
        };
        let point = Point {
            stack: stack.copy()?,
            node,
            inputs: Seq::new(alloc),
            done: false,
        };
        let preds = Seq::from_vec(Vec::from_slice(alloc, preds)?);
        Ok(SyncPoint { point, preds })
    }

    /// Whether an edge leads from this node to the point's.
    pub(crate) fn is_before(&self, from: u32) -> bool
        ensures { result ≡ is_before from self.now }
    {
        self.preds.as_slice().contains(&from)
    }

    /// Gathers the input that a node gives, unless it gave one already; tells whether it is new.
    pub(crate) fn gather(&mut self, from: u32, input: Input) -> Result<bool, AllocError>
        ensures point { OnOk result (self.new ≡ with_input from input self.old) }
        ensures told { IfOk result (λ is_new. is_new ≡ not (has_from from self.old.point.inputs)) }
        ensures same { OnErr result (self.new ≡ self.old) }
    {
        if has_from(self.point.inputs.as_slice(), from) {
            return Ok(false);
        }
        let shared = SharedInput::new(self.point.inputs.allocator(), given(from, input))?;
        self.point.inputs.push(shared)?;
        Ok(true)
    }

    /// Writes other inputs, and whether the node is done.
    pub(crate) fn write(&mut self, inputs: Seq<SharedInput>, done: bool)
        ensures { self.new ≡ written inputs done self.old }
    {
        self.point.inputs = inputs;
        self.point.done = done;
    }

    /// Whether each node before gave an input.
    pub(crate) fn is_full(&self) -> bool
        ensures { result ≡ is_full self.now }
    {
        let inputs = self.point.inputs.as_slice();
        self.preds.as_slice().iter().all(
            |from: &u32| -> bool
                ensures { result ≡ has_from from.now inputs.entry.now }
            { has_from(inputs, *from) },
        )
    }

    /// How many edges have no input.
    pub(crate) fn missing(&self) -> usize
        ensures { result ≡ missing_of self.now }
    {
        let mut missing = 0usize;
        for from in self.preds.as_slice() {
            if !has_from(self.point.inputs.as_slice(), *from) {
                missing += 1;
            }
        }
        missing
    }

    /// How many edges lead from this node to the point's.
    pub(crate) fn edges_from(&self, from: u32) -> usize
        ensures { result ≡ count_by (λ n. nat_eq n from) self.now.preds }
    {
        let mut edges = 0usize;
        for node in self.preds.as_slice() {
            if *node == from {
                edges += 1;
            }
        }
        edges
    }
}

impl TryCopy for SyncPoint {
    fn copy(&self) -> Result<SyncPoint, AllocError> {
        let preds = Vec::from_slice(self.preds.allocator(), self.preds.as_slice())?;
        Ok(SyncPoint {
            point: self.point.copy()?,
            preds: Seq::from_vec(preds),
        })
    }
}

impl Equals for SyncPoint {
    fn equals(&self, other: &SyncPoint) -> bool {
        self.point.equals(&other.point) && self.preds.equals(&other.preds)
    }
}

// Whether a node gave one of the inputs.
fn has_from(inputs: &[SharedInput], from: u32) -> bool
    ensures { result ≡ has_from from inputs.now }
{
    inputs.iter().any(|shared| shared.input().from == from)
}

// The input, as that of the node that gives it.
fn given(from: u32, input: Input) -> Input
    ensures { result ≡ given from input }
{
    let mut given = input;
    given.from = from;
    given
}
