//! Forty calls of the points of a graph, in both of their forms: what they answer.
use crate::parts::{add, res_name, row_no, same, stack_name};
use heat_value::Seq;
use std::alloc::{AllocError, Global};
use sync_points::{
    Input, ListPoints, PointAnswer, PointOp, Points, SharedInput, SyncPoints, run_points,
};

// A call. An input comes from a node to a node, and has a row; what is set are inputs from these nodes,
// and whether the node is done.
#[derive(Clone, Copy)]
enum Call {
    Gather(u32, u32, u64),
    Set(u32, &'static [u32], bool),
    Inputs(u32),
    IsDone(u32),
    Finish(u32),
}

const CALLS: [Call; 40] = [
    // Inputs come along edges, some twice, and where no edge is.
    Call::Inputs(0),
    Call::IsDone(0),
    Call::Finish(0),
    Call::IsDone(0),
    Call::Inputs(0),
    Call::Gather(0, 1, 1),
    Call::Gather(0, 1, 2),
    Call::Gather(2, 3, 3),
    Call::Gather(2, 3, 3),
    Call::Gather(0, 3, 4),
    Call::Inputs(3),
    Call::IsDone(3),
    Call::Gather(1, 3, 5),
    Call::Gather(4, 4, 6),
    Call::Gather(0, 4, 7),
    Call::Gather(1, 5, 8),
    Call::Inputs(4),
    Call::Finish(4),
    Call::Inputs(5),
    Call::IsDone(5),
    Call::Finish(5),
    // A node gets other inputs, more than it has edges, and then fewer.
    Call::Set(3, &[1, 1, 7], true),
    Call::Inputs(3),
    Call::IsDone(3),
    Call::Gather(1, 3, 1),
    Call::Gather(2, 3, 1),
    Call::Gather(2, 3, 1),
    Call::Set(3, &[], false),
    Call::Inputs(3),
    Call::IsDone(3),
    Call::Gather(2, 3, 1),
    Call::Gather(1, 3, 2),
    Call::Inputs(3),
    Call::Finish(3),
    Call::IsDone(3),
    Call::Set(5, &[1], true),
    Call::IsDone(2),
    Call::Inputs(2),
    Call::IsDone(1),
    Call::Inputs(1),
];

fn input(alloc: Global, from: u32, row: u64) -> Result<Input, AllocError> {
    let row = row_no(row)?;
    let name = res_name(alloc, b'a')?;
    Ok(Input {
        from,
        name: Some(name),
        row,
        facts: None,
    })
}

fn inputs(alloc: Global, froms: &[u32]) -> Result<Seq<SharedInput>, AllocError> {
    let mut inputs = Seq::new(alloc);
    for from in froms {
        inputs.push(SharedInput::new(alloc, input(alloc, *from, 9)?)?)?;
    }
    Ok(inputs)
}

fn op_of(alloc: Global, call: Call) -> Result<PointOp, AllocError> {
    match call {
        Call::Gather(from, to, row) => Ok(PointOp::Gather(to, from, input(alloc, from, row)?)),
        Call::Set(node, froms, done) => Ok(PointOp::Set(node, inputs(alloc, froms)?, done)),
        Call::Inputs(node) => Ok(PointOp::Inputs(node)),
        Call::IsDone(node) => Ok(PointOp::IsDone(node)),
        Call::Finish(node) => Ok(PointOp::Finish(node)),
    }
}

fn ops_of(alloc: Global, calls: &[Call]) -> Result<Vec<PointOp>, AllocError> {
    let mut ops = Vec::new(alloc);
    for call in calls {
        ops.push(op_of(alloc, *call)?)?;
    }
    Ok(ops)
}

// Nodes 1 and 2 are behind 0, 3 behind 1 and 2, and 4 behind 0 and itself.
fn preds(alloc: Global) -> Result<Vec<Seq<u32>>, AllocError> {
    let mut preds = Vec::new(alloc);
    let edges: [&[u32]; 5] = [&[], &[0], &[0], &[1, 2], &[0, 4]];
    for before in edges.as_slice() {
        preds.push(Seq::from_vec(Vec::from_slice(alloc, *before)?))?;
    }
    Ok(preds)
}

// What the gatherings told: 1 where the input is new, and 2 more where the point is full.
fn words_of(alloc: Global, answers: &[PointAnswer]) -> Result<String, AllocError> {
    let mut words = String::new(alloc);
    for answer in answers {
        if let PointAnswer::Gathered(told) = answer {
            add(
                alloc,
                &mut words,
                u64::from(told.new) + u64::from(told.full) * 2,
            )?;
        }
    }
    Ok(words)
}

fn told<R: Points>(alloc: Global, points: &mut R) -> Result<String, AllocError> {
    let ops = ops_of(alloc, &CALLS)?;
    let answers = run_points(alloc, points, &ops)?;
    words_of(alloc, answers.as_slice())
}

fn told_of_list(alloc: Global) -> Result<String, AllocError> {
    let stack = stack_name(alloc, b's')?;
    let preds = preds(alloc)?;
    told(alloc, &mut ListPoints::new(alloc, &stack, &preds)?)
}

fn told_of_table(alloc: Global) -> Result<String, AllocError> {
    let stack = stack_name(alloc, b's')?;
    let preds = preds(alloc)?;
    told(alloc, &mut SyncPoints::new(alloc, &stack, &preds)?)
}

const WANTED: &str = "3 2 1 0 3 1 3 0 3 2 1 3 ";

#[test]
fn a_list_answers_forty_calls(rt: HostRuntime) -> Result<(), AllocError> {
    same(&rt, told_of_list(rt.alloc())?.as_str(), WANTED);
    Ok(())
}

#[test]
fn a_table_answers_them_the_same(rt: HostRuntime) -> Result<(), AllocError> {
    same(&rt, told_of_table(rt.alloc())?.as_str(), WANTED);
    Ok(())
}
