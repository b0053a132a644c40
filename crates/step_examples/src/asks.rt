//! What a case asks for, and the step that it is.

use crate::halt::Halt;
use crate::wear::Worn;
use command_steps::{cancel, create, delete, update};
use core_state::{Made, State};
use heat_plan::{EngineNo, StackName};
use sample_turns::{Reply, plan_for, turn};
use script_lines::{Body, Line, Misread};
use std::alloc::Global;
use takeover_steps::{enlist, restart, stop};

/// A line of the program, a turn of the engine 1 with this reply, so many turns of it that go as they
/// should, a restart with three engines, or what is to be worn out.
#[derive(Clone, Copy)]
pub(crate) enum Ask {
    Line(&'static str),
    Turn(Reply),
    Run(u8),
    Restart,
    Wear(Worn),
}

/// The one step that is asked for.
pub(crate) fn step(alloc: Global, s: &State, ask: Ask) -> Result<Made, Halt> {
    match ask {
        Ask::Line(line) => read(alloc, s, line),
        Ask::Turn(reply) => turned(alloc, s, first()?, reply),
        Ask::Restart => Ok(restart(alloc, s, 3)?),
        Ask::Run(_) | Ask::Wear(_) => Err(Halt::Words),
    }
}

// The engine 1.
fn first() -> Result<EngineNo, Halt> {
    EngineNo::new(1).ok_or(Halt::Words)
}

// The step of a line.
fn read(alloc: Global, s: &State, line: &str) -> Result<Made, Halt> {
    match Line::read(alloc, line.as_bytes()) {
        Ok(line) => lined(alloc, s, line),
        Err(Misread::Memory) => Err(Halt::Memory),
        Err(_) => Err(Halt::Words),
    }
}

// The same once it is read.
fn lined(alloc: Global, s: &State, line: Line) -> Result<Made, Halt> {
    match line {
        Line::Create(name, body) => created(alloc, s, &name, &body),
        Line::Update(name, body) => updated(alloc, s, &name, &body),
        Line::Delete(name) => Ok(delete(alloc, s, &name)?),
        Line::Cancel(name) => Ok(cancel(alloc, s, &name)?),
        Line::Turn(e) => turned(alloc, s, e, Reply::Works),
        Line::Stop(e) => Ok(stop(alloc, s, e)?),
        Line::Start => Ok(enlist(alloc, s)?),
        _ => Err(Halt::Words),
    }
}

// A create.
fn created(alloc: Global, s: &State, name: &StackName, body: &Body) -> Result<Made, Halt> {
    let plan = plan_for(alloc, name, body)?;
    Ok(create(alloc, s, name, plan, body.rollback())?)
}

// An update.
fn updated(alloc: Global, s: &State, name: &StackName, body: &Body) -> Result<Made, Halt> {
    let plan = plan_for(alloc, name, body)?;
    Ok(update(alloc, s, name, plan, body.rollback())?)
}

// A turn that is a step.
fn turned(alloc: Global, s: &State, e: EngineNo, reply: Reply) -> Result<Made, Halt> {
    match turn(alloc, s, e, reply)? {
        Some(made) => Ok(made),
        None => Err(Halt::Words),
    }
}
