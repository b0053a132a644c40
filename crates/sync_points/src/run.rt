//! Runs of calls over points.
ghost use Rattle.std.specs.Prelude.{◌≡◌, ◌↔◌, IfOk, IsTrue, IsSome};
ghost use Rattle.sync_points.specs.declared.ops.PointAnswer.TheVariants as gives;
ghost use Rattle.sync_points.specs.Points.{IsEdge, finished, point_at, written};
ghost use Rattle.sync_points.specs.Runs.{Does, Gathers, Reads, Runs, Writes};

use crate::ops::{PointAnswer, PointOp};
use crate::points::Points;
use crate::{Input, SharedInput};
use heat_plan::{Seq, TryCopy};
use std::alloc::{AllocError, Global};

/// Makes the calls in order, each where its condition holds, and answers what each gives.
pub fn run_points<R: Points>(
    alloc: Global,
    points: &mut R,
    ops: &[PointOp],
) -> Result<Seq<PointAnswer>, AllocError>
    ensures { IfOk result (λ answers. Runs ops.now (R.content points.old) answers (R.content points.new)) }
{
    let mut answers = Seq::new(alloc);
    for op in ops {
        let answer = answer_of(alloc, points, op)?;
        answers.push(answer)?;
    }
    Ok(answers)
}

// Makes one call.
fn answer_of<R: Points>(
    alloc: Global,
    points: &mut R,
    op: &PointOp,
) -> Result<PointAnswer, AllocError>
    ensures { IfOk result (λ answer. Does op.now (R.content points.old) answer (R.content points.new)) }
{
    match op {
        PointOp::Gather(node, from, input) => Ok(gather(points, *node, *from, input.copy()?)?),
        PointOp::Inputs(node) => inputs_of(alloc, points, *node),
        PointOp::Finish(node) => Ok(finish(points, *node)),
        PointOp::IsDone(node) => Ok(is_done(points, *node)),
        PointOp::Set(node, inputs, done) => Ok(set(points, *node, inputs.copy()?, *done)),
    }
}

// Gathers an input, if there is such an edge.
fn gather<R: Points>(
    points: &mut R,
    node: u32,
    from: u32,
    input: Input,
) -> Result<PointAnswer, AllocError>
    ensures { IfOk result (λ answer.
        Gathers node from input (R.content points.old) answer (R.content points.new)) }
{
    if is_edge(points, from, node) {
        let gathered = points.gather(node, from, input)?;
        return Ok(PointAnswer::Gathered(gathered));
    }
    Ok(PointAnswer::Barred)
}

// Whether an edge leads from one node to the other.
fn is_edge<R: Points>(points: &R, from: u32, node: u32) -> bool
    ensures { IsTrue result ↔ IsEdge (R.content points.now) from node }
{
    match points.point(node) {
        Some(point) => point.is_before(from),
        None => false,
    }
}

// The node's inputs, copied, if it has a point.
fn inputs_of<R: Points>(alloc: Global, points: &R, node: u32) -> Result<PointAnswer, AllocError>
    ensures { IfOk result (λ answer.
        Reads node (λ p. gives.Inputs p.point.inputs) (R.content points.now) answer (R.content points.now)) }
{
    if !has_point(points, node) {
        return Ok(PointAnswer::Barred);
    }
    Ok(PointAnswer::Inputs(copy_of(alloc, points.inputs(node))?))
}

// The same inputs.
fn copy_of(alloc: Global, inputs: &[SharedInput]) -> Result<Seq<SharedInput>, AllocError>
    ensures { IfOk result (λ copy. copy ≡ inputs.now) }
{
    let mut copy = Vec::with_capacity(alloc, inputs.len())?;
    for input in inputs {
        copy.push(input.copy()?)?;
    }
    Ok(Seq::from_vec(copy))
}

// The node is done, if it has a point.
fn finish<R: Points>(points: &mut R, node: u32) -> PointAnswer
    ensures { Writes node finished (R.content points.old) result (R.content points.new) }
{
    if !has_point(points, node) {
        return PointAnswer::Barred;
    }
    points.finish(node);
    PointAnswer::Done
}

// Whether the node is done, if it has a point.
fn is_done<R: Points>(points: &R, node: u32) -> PointAnswer
    ensures { Reads node (λ p. gives.IsDone p.point.done) (R.content points.now) result (R.content points.now) }
{
    if !has_point(points, node) {
        return PointAnswer::Barred;
    }
    PointAnswer::IsDone(points.is_done(node))
}

// Writes other inputs for the node, and whether it is done, if it has a point.
fn set<R: Points>(points: &mut R, node: u32, inputs: Seq<SharedInput>, done: bool) -> PointAnswer
    ensures { Writes node (written inputs done) (R.content points.old) result (R.content points.new) }
{
    if !has_point(points, node) {
        return PointAnswer::Barred;
    }
    points.set(node, inputs, done);
    PointAnswer::Done
}

// Whether the node has a point.
fn has_point<R: Points>(points: &R, node: u32) -> bool
    ensures { IsTrue result ↔ IsSome (point_at (R.content points.now) node) }
{
    points.point(node).is_some()
}
