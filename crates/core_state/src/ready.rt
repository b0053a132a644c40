//! Changes with the memory that making them takes.
ghost use Rattle.std.specs.Prelude.{◌≡◌, IfOk};
ghost use Rattle.core_state.specs.Changes.{points_for};

use crate::batch::Batch;
use crate::change::Change;
use crate::graph::fresh_points;
use std::alloc::{AllocError, Global};
use std::marker::Model;
use sync_points::NodePoints;

/// A change, with the points that it brings with it. It is made without memory, within the room.
#[derive(Debug, Drop)]
pub struct Ready {
    change: Change,
    points: NodePoints,
}

impl Model for Ready {
    ghost use Rattle.std.specs.Prelude.{◌≡◌};
    ghost use Rattle.std.specs.Coded.{codes};
    ghost use Rattle.heat_value.specs.Code.{data_code, members_code};
    ghost use Rattle.core_state.specs.declared.change.Change.{Change};
    ghost use Rattle.core_state.specs.Changes.{points_for};

    ghost Value = { Change };

    ghost coded = { Prim.hlevel (codes, data_code, members_code) };

    ghost view = { λ r. r.change };

    ghost invariant = { λ r. r.points ≡ points_for r.change };
}

impl Ready {
    /// The change, with points for its graph.
    pub fn new(alloc: Global, change: Change) -> Result<Ready, AllocError>
        ensures { IfOk result (λ r. r ≡ change) }
    {
        let points = points_for(alloc, &change)?;
        Ok(Ready { change, points })
    }

    /// The change.
    pub fn change(&self) -> &Change
        ensures { result.now ≡ self.now }
    {
        &self.change
    }

    /// The change and its points.
    pub(crate) fn into_parts(self) -> (Change, NodePoints)
        ensures change { result.0 ≡ self }
        ensures points { result.1 ≡ points_for self }
    {
        (self.change, self.points)
    }
}

// The points that a change brings with it.
fn points_for(alloc: Global, change: &Change) -> Result<NodePoints, AllocError>
    ensures { IfOk result (λ points. points ≡ points_for change.now) }
{
    match change {
        Change::PutGraph(stack, graph) => fresh_points(alloc, stack, graph),
        Change::PutStack(_)
        | Change::DropStack(_)
        | Change::PutRow(_)
        | Change::DropRow(_)
        | Change::PutPoint(_)
        | Change::Send(_)
        | Change::Drop(_)
        | Change::PutJob(_)
        | Change::EndJob(_)
        | Change::Enlist(_)
        | Change::Stop(_)
        | Change::Numbers(_)
        | Change::PutPast(_)
        | Change::Release(_) => Ok(NodePoints::none(alloc)),
    }
}

/// The same changes in order, each with its memory.
pub fn ready_all(alloc: Global, changes: Batch<Change>) -> Result<Batch<Ready>, AllocError>
    ensures { IfOk result (λ all. all ≡ changes) }
{
    let mut all = Batch::new(alloc);
    for change in changes.into_vec() {
        all.push(Ready::new(alloc, change)?)?;
    }
    Ok(all)
}
