//! The points of a graph that change when a node is done.
ghost use Rattle.std.specs.Prelude.{◌≡◌, IfOk, option_map};
ghost use Rattle.step_relation.specs.Inputs.{gathered, has_from, passed_points, point_after};
ghost use Rattle.step_reads.specs.Points.{gathered_if, inputs_in, point_with};

use crate::nodes::{is_done, point_of};
use core_state::{Batch, Graph, Point, SharedInput};
use heat_value::{Seq, TryCopy};
use std::alloc::{AllocError, Global};

/// The points that change when a node is done and gives this input to the nodes behind it: its own,
/// and then theirs.
pub fn points_passed(
    alloc: Global,
    graph: &Graph,
    node: u32,
    input: &SharedInput,
    succs: &[u32],
) -> Result<Batch<Point>, AllocError>
    ensures { IfOk result (λ points. points ≡ passed_points graph.now node input.now succs.now) }
{
    let mut points = Batch::new(alloc);
    points.push(own_point(alloc, graph, node, input, succs)?)?;
    for succ in succs {
        points.push(point_with(alloc, graph, node, *succ, Some(input))?)?;
    }
    Ok(points)
}

// The point of the node itself, which is behind itself in no graph that was built.
fn own_point(
    alloc: Global,
    graph: &Graph,
    node: u32,
    input: &SharedInput,
    succs: &[u32],
) -> Result<Point, AllocError>
    ensures { IfOk result (λ p. p ≡ point_after graph.now node input.now succs.now node) }
{
    if succs.contains(&node) {
        point_with(alloc, graph, node, node, Some(input))
    } else {
        point_with(alloc, graph, node, node, None)
    }
}

// The point of a node, with this input, once another is done.
fn point_with(
    alloc: Global,
    graph: &Graph,
    done: u32,
    node: u32,
    input: Option<&SharedInput>,
) -> Result<Point, AllocError>
    ensures { IfOk result (λ p.
        p ≡ point_with graph.now done node (option_map (λ x. x.now) input.entry)) }
{
    let inputs = inputs_in(alloc, point_of(graph, node))?;
    Ok(Point {
        stack: graph.stack.copy()?,
        node,
        inputs: gathered_if(inputs, input)?,
        done: node == done || is_done(graph, node),
    })
}

// The inputs of a point, if it stands.
fn inputs_in(alloc: Global, point: Option<&Point>) -> Result<Seq<SharedInput>, AllocError>
    ensures { IfOk result (λ inputs. inputs ≡ inputs_in (option_map (λ p. p.now) point.entry)) }
{
    match point {
        Some(point) => point.inputs.copy(),
        None => Ok(Seq::new(alloc)),
    }
}

// The inputs with this one, unless its node gave one already.
fn gathered_if(
    inputs: Seq<SharedInput>,
    input: Option<&SharedInput>,
) -> Result<Seq<SharedInput>, AllocError>
    ensures { IfOk result (λ all. all ≡ gathered_if (option_map (λ x. x.now) input.entry) inputs) }
{
    match input {
        Some(input) => gathered(inputs, input),
        None => Ok(inputs),
    }
}

// The inputs with this one, unless its node gave one already.
fn gathered(inputs: Seq<SharedInput>, shared: &SharedInput) -> Result<Seq<SharedInput>, AllocError>
    ensures { IfOk result (λ all. all ≡ gathered shared.now inputs) }
{
    if has_from(inputs.as_slice(), shared.input().from) {
        return Ok(inputs);
    }
    let mut all = inputs;
    all.push(shared.copy()?)?;
    Ok(all)
}

// Whether a node gave one of the inputs.
fn has_from(inputs: &[SharedInput], from: u32) -> bool
    ensures { result ≡ has_from from inputs.now }
{
    inputs.iter().any(|shared| shared.input().from == from)
}
