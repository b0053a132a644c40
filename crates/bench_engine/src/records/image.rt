//! The records of a stack of so many rows, with an update node and a clean-up node for each.

use crate::steps::life::{Work, left};
use crate::steps::plans::Shape;
use anyhow::{Result, bail};
use core_state::{Batch, Change, Next, Node, Numbers, Row, Stack, TravGraph, ready_all};
use heat_plan::{ResName, RowNo, StackName};
use heat_value::{Seq, TryCopy};
use row_codec::{Sheet, write};
use std::alloc::Global;

/// The stack with its graph and the next numbers, and then each row in a record of its own, of some 300 bytes. The
/// rows are that of one box that was created, under other names and numbers.
pub fn image(alloc: Global, count: u32) -> Result<Vec<Sheet>> {
    let state = left(alloc, Work::Create, Shape::Chain, 1)?;
    let [stack] = state.stacks() else {
        bail!("a stack");
    };
    let [row] = state.rows() else {
        bail!("a row");
    };
    let mut records = Vec::new(alloc);
    records.push(record(alloc, head(alloc, stack, count)?)?)?;
    for place in 0..count {
        records.push(record(alloc, row_alone(alloc, row, place)?)?)?;
    }
    Ok(records)
}

fn record(alloc: Global, changes: Batch<Change>) -> Result<Sheet> {
    Ok(write(alloc, ready_all(alloc, changes)?.as_slice())?)
}

// The stack, its graph and the next numbers.
fn head(alloc: Global, stack: &Stack, count: u32) -> Result<Batch<Change>> {
    let mut changes = Batch::new(alloc);
    changes.push(Change::PutStack(stack.copy()?))?;
    changes.push(Change::PutGraph(stack.name.copy()?, graph(alloc, count)?))?;
    changes.push(Change::Numbers(numbers(count)))?;
    Ok(changes)
}

// One stack was drawn with one traversal, and so many rows.
fn numbers(count: u32) -> Numbers {
    let first = Next::first();
    Numbers {
        stack: first.after(1),
        trav: first.after(1),
        row: first.after(u64::from(count)),
        engine: first,
        letter: first,
    }
}

fn graph(alloc: Global, count: u32) -> Result<TravGraph> {
    let mut nodes = Seq::new(alloc);
    for place in 0..count {
        nodes.push(Node::U(name(alloc, place)?, number(place)?))?;
        nodes.push(Node::C(number(place)?))?;
    }
    Ok(TravGraph {
        nodes,
        edges: Seq::new(alloc),
    })
}

fn row_alone(alloc: Global, row: &Row, place: u32) -> Result<Batch<Change>> {
    let mut row = row.copy()?;
    row.no = number(place)?;
    row.name = name(alloc, place)?;
    let mut changes = Batch::new(alloc);
    changes.push(Change::PutRow(row))?;
    Ok(changes)
}

fn number(place: u32) -> Result<RowNo> {
    match RowNo::new(u64::from(place) + 1) {
        Some(no) => Ok(no),
        None => bail!("a number"),
    }
}

// A name of 69 bytes, by which a record comes to 300.
fn name(alloc: Global, place: u32) -> Result<ResName> {
    let text = format!(in alloc; "r{place:068}")?;
    match ResName::read(alloc, text.as_bytes())? {
        Some(name) => Ok(name),
        None => bail!("a name"),
    }
}
