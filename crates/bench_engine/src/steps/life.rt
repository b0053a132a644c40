//! The life of one stack: its commands, each with turns of one engine until that is idle.

use crate::steps::course::Course;
use crate::steps::plans::{Shape, planned};
use anyhow::{Result, bail};
use command_steps::{create, delete, update};
use core_state::{Made, State};
use heat_plan::{EngineNo, Plan, Refusal, StackName};
use row_codec::Sheet;
use sample_turns::{Reply, turn};
use std::alloc::Global;
use takeover_steps::enlist;

// More turns than any command here takes.
const MOST_TURNS: u32 = 1_000_000;

/// What is done, each behind the one before it.
#[derive(Clone, Copy, Debug, PartialEq, Eq)]
pub enum Work {
    /// Creates the stack.
    Create,
    /// Updates it with nothing changed.
    Same,
    /// Updates it with a third in place and a seventh replaced.
    Change,
    /// Deletes it.
    Delete,
}

/// How many turns a stack's life takes up to this work, and how many rows stand then.
pub fn lived(alloc: Global, until: Work, shape: Shape, count: u32) -> Result<(u32, usize)> {
    let mut course = Course::unkept(alloc);
    let turns = live(alloc, &mut course, until, shape, count)?;
    Ok((turns, course.state.rows().len()))
}

/// The state that a stack's life leaves up to this work.
pub fn left(alloc: Global, until: Work, shape: Shape, count: u32) -> Result<State> {
    let mut course = Course::unkept(alloc);
    live(alloc, &mut course, until, shape, count)?;
    Ok(course.state)
}

/// The bytes of each list of changes that a stack's whole life makes.
pub fn recorded(alloc: Global, shape: Shape, count: u32) -> Result<Vec<Sheet>> {
    let mut course = Course::kept(alloc);
    live(alloc, &mut course, Work::Delete, shape, count)?;
    let kept = course.kept;
    match kept {
        Some(records) => Ok(records),
        None => bail!("no records"),
    }
}

fn live(alloc: Global, course: &mut Course, until: Work, shape: Shape, count: u32) -> Result<u32> {
    let mut turns = 0u32;
    for work in [Work::Create, Work::Same, Work::Change, Work::Delete] {
        turns = turns.saturating_add(done(alloc, course, work, shape, count)?);
        if work == until {
            return Ok(turns);
        }
    }
    Ok(turns)
}

// How many turns one work takes.
fn done(alloc: Global, course: &mut Course, work: Work, shape: Shape, count: u32) -> Result<u32> {
    let (name, plan) = planned(alloc, shape, count, work == Work::Change)?;
    match drive(alloc, course, work, &name, plan) {
        Ok(turns) => Ok(turns),
        Err(refusal) => bail!("{}", refusal.code().unwrap_or("no memory")),
    }
}

// Makes the command's step, and turns until nothing is left to do.
fn drive(
    alloc: Global,
    course: &mut Course,
    work: Work,
    name: &StackName,
    plan: Plan,
) -> Result<u32, Refusal> {
    if course.state.live().is_empty() {
        let made = enlist(alloc, &course.state)?;
        course.make(alloc, made)?;
    }
    let made = ordered(alloc, &course.state, work, name, plan)?;
    course.make(alloc, made)?;
    run(alloc, course)
}

// The step of the command.
fn ordered(
    alloc: Global,
    s: &State,
    work: Work,
    name: &StackName,
    plan: Plan,
) -> Result<Made, Refusal> {
    match work {
        Work::Create => create(alloc, s, name, plan, false),
        Work::Same => update(alloc, s, name, plan, false),
        Work::Change => update(alloc, s, name, plan, false),
        Work::Delete => delete(alloc, s, name),
    }
}

// How many turns the engine 1 has to make.
fn run(alloc: Global, course: &mut Course) -> Result<u32, Refusal> {
    let Some(e) = EngineNo::new(1) else {
        return Ok(0);
    };
    for turns in 0..MOST_TURNS {
        match turn(alloc, &course.state, e, Reply::Works)? {
            Some(made) => course.make(alloc, made)?,
            None => return Ok(turns),
        }
    }
    Ok(MOST_TURNS)
}
