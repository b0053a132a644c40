//! Points that get inputs and are read.

use crate::tables::rows::{number, stack};
use anyhow::Result;
use heat_value::Seq;
use std::alloc::Global;
use sync_points::{Input, PointAnswer, PointOp, SyncPoints, run_points};

/// Gathers an input along each edge of a graph of so many nodes, each behind the ten before it, and reads
/// and finishes each point.
pub fn gathered(alloc: Global, count: u32) -> Result<usize> {
    let mut points = SyncPoints::new(alloc, &stack(alloc)?, &preds(alloc, count)?)?;
    let answers = run_points(alloc, &mut points, &calls(alloc, count)?)?;
    let mut told = 0usize;
    for answer in answers.as_slice() {
        if !matches!(answer, PointAnswer::Barred) {
            told = told.saturating_add(1);
        }
    }
    Ok(told)
}

fn preds(alloc: Global, count: u32) -> Result<Vec<Seq<u32>>> {
    let mut preds = Vec::new(alloc);
    for node in 0..count {
        let mut before = Seq::new(alloc);
        for from in node.saturating_sub(10)..node {
            before.push(from)?;
        }
        preds.push(before)?;
    }
    Ok(preds)
}

fn calls(alloc: Global, count: u32) -> Result<Vec<PointOp>> {
    let mut ops = Vec::new(alloc);
    for node in 0..count {
        for from in node.saturating_sub(10)..node {
            ops.push(PointOp::Gather(node, from, input(from)?))?;
        }
        ops.push(PointOp::Inputs(node))?;
        ops.push(PointOp::Finish(node))?;
        ops.push(PointOp::IsDone(node))?;
    }
    Ok(ops)
}

fn input(from: u32) -> Result<Input> {
    Ok(Input {
        from,
        name: None,
        row: number(from)?,
        facts: None,
    })
}
