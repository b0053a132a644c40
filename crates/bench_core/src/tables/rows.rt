//! Rows that come, are found, locked, unlocked and purged.

use anyhow::{Result, bail};
use heat_plan::{Act, EngineNo, Policy, Properties, ResName, RowNo, StackName, Status, TravNo};
use heat_value::Seq;
use row_table::{Row, RowAnswer, RowOp, RowTable, run_rows};
use sample_plans::boxes;
use std::alloc::Global;

/// Makes the calls alone.
pub fn made(alloc: Global, count: u32) -> Result<usize> {
    Ok(puts(alloc, count)?.len())
}

/// Puts so many rows, rising in number and name.
pub fn put(alloc: Global, count: u32) -> Result<usize> {
    let mut table = RowTable::new(alloc);
    done(alloc, &mut table, &puts(alloc, count)?)
}

/// Puts them, and finds each by number and by name, its chain's end, and all of the stack.
pub fn found(alloc: Global, count: u32) -> Result<usize> {
    let mut table = RowTable::new(alloc);
    let put = done(alloc, &mut table, &puts(alloc, count)?)?;
    let found = done(alloc, &mut table, &finds(alloc, count)?)?;
    Ok(put.saturating_add(found))
}

/// Puts them, finds each by name, locks and unlocks each, and purges each, the last one first.
pub fn lived(alloc: Global, count: u32) -> Result<usize> {
    let mut table = RowTable::new(alloc);
    let put = done(alloc, &mut table, &puts(alloc, count)?)?;
    let lived = done(alloc, &mut table, &lives(alloc, count)?)?;
    Ok(put.saturating_add(lived))
}

fn puts(alloc: Global, count: u32) -> Result<Vec<RowOp>> {
    let mut ops = Vec::new(alloc);
    for place in 0..count {
        ops.push(RowOp::Put(row(alloc, place)?))?;
    }
    Ok(ops)
}

fn finds(alloc: Global, count: u32) -> Result<Vec<RowOp>> {
    let mut ops = Vec::new(alloc);
    for place in 0..count {
        ops.push(RowOp::Get(number(place)?))?;
        ops.push(RowOp::Current(stack(alloc)?, name(alloc, place)?))?;
        ops.push(RowOp::Head(number(place)?))?;
    }
    ops.push(RowOp::OfStack(stack(alloc)?))?;
    Ok(ops)
}

fn lives(alloc: Global, count: u32) -> Result<Vec<RowOp>> {
    let mut ops = Vec::new(alloc);
    let engine = engine()?;
    for place in 0..count {
        ops.push(RowOp::Current(stack(alloc)?, name(alloc, place)?))?;
        ops.push(RowOp::Lock(number(place)?, engine))?;
        ops.push(RowOp::Unlock(number(place)?))?;
    }
    for place in (0..count).rev() {
        ops.push(RowOp::Purge(number(place)?))?;
    }
    Ok(ops)
}

// Runs the calls; how many were made and told something.
fn done(alloc: Global, table: &mut RowTable, ops: &[RowOp]) -> Result<usize> {
    let answers = run_rows(alloc, table, ops)?;
    let mut told = 0usize;
    for answer in answers.as_slice() {
        if tells(answer) {
            told = told.saturating_add(1);
        }
    }
    Ok(told)
}

fn tells(answer: &RowAnswer) -> bool {
    match answer {
        RowAnswer::Got(row) => row.is_some(),
        RowAnswer::Current(no) => no.is_some(),
        RowAnswer::Rows(nos) => !nos.is_empty(),
        RowAnswer::Head(_) | RowAnswer::Done => true,
        RowAnswer::Barred => false,
    }
}

fn row(alloc: Global, place: u32) -> Result<Row> {
    Ok(Row {
        no: number(place)?,
        stack: stack(alloc)?,
        name: name(alloc, place)?,
        kind: boxes(alloc, &[], &[])?,
        act: Act::Create,
        status: Status::Complete,
        trav: trav()?,
        props: Properties::new(alloc),
        target: None,
        facts: None,
        requires_: Seq::new(alloc),
        replaces: None,
        replaced_by: None,
        engine: None,
        key: 0,
        policy: Policy::Delete,
    })
}

fn name(alloc: Global, place: u32) -> Result<ResName> {
    let text = format!(in alloc; "r{place:08}")?;
    match ResName::read(alloc, text.as_bytes())? {
        Some(name) => Ok(name),
        None => bail!("a name"),
    }
}

/// The stack's name.
pub fn stack(alloc: Global) -> Result<StackName> {
    match StackName::read(alloc, b"s")? {
        Some(name) => Ok(name),
        None => bail!("a name"),
    }
}

/// A row's number, by a place.
pub fn number(place: u32) -> Result<RowNo> {
    match RowNo::new(u64::from(place) + 1) {
        Some(no) => Ok(no),
        None => bail!("a number"),
    }
}

/// The traversal's number.
pub fn trav() -> Result<TravNo> {
    match TravNo::new(1) {
        Some(no) => Ok(no),
        None => bail!("a number"),
    }
}

fn engine() -> Result<EngineNo> {
    match EngineNo::new(1) {
        Some(no) => Ok(no),
        None => bail!("a number"),
    }
}
