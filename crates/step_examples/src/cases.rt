//! A case, and how it is tried: the steps before it are made, and what its own tells is compared with what
//! it is to tell.

use crate::asks::{Ask, step};
use crate::halt::Halt;
use crate::told::{code, letters};
use crate::wear::wear;
use core_state::{Made, State};
use sample_turns::{Reply, apply};
use std::alloc::Global;
use std::process::Abort;
use std::test::Fail;

/// The name of a case, what leads to its state, its step, and the letters of what that tells, or the code
/// of what refuses it.
#[derive(Clone, Copy)]
pub(crate) struct Case {
    pub name: &'static str,
    pub before: &'static [Ask],
    pub step: Ask,
    pub gives: &'static str,
}

/// Tries each case, and shows the first that differs.
pub(crate) fn try_all(rt: &(impl Abort + AllocGlobal), cases: &[Case]) -> Result<(), Fail> {
    for case in cases {
        let told = told_again(rt.alloc(), case).ok().ok_or(case.name)?;
        assert_eq!(rt; told.as_slice(), case.gives.as_bytes(), "{}", case.name);
    }
    Ok(())
}

// What a case tells. Where one allocation failed on the way to its state, it is tried once more.
fn told_again(alloc: Global, case: &Case) -> Result<Vec<u8>, Halt> {
    match told(alloc, case) {
        Err(Halt::Memory) => told(alloc, case),
        told => told,
    }
}

// What a case tells.
fn told(alloc: Global, case: &Case) -> Result<Vec<u8>, Halt> {
    let mut s = State::new(alloc);
    told_from(alloc, &mut s, case)
}

// The same from the empty state.
fn told_from(alloc: Global, s: &mut State, case: &Case) -> Result<Vec<u8>, Halt> {
    for ask in case.before {
        lead_on(alloc, s, *ask)?;
    }
    match step_again(alloc, s, case.step) {
        Ok(made) => Ok(letters(alloc, made.entries.as_slice())?),
        Err(Halt::Refused(refusal)) => Ok(code(alloc, refusal)?),
        Err(halt) => Err(halt),
    }
}

// Makes what is asked for.
fn lead_on(alloc: Global, s: &mut State, ask: Ask) -> Result<(), Halt> {
    match ask {
        Ask::Run(count) => run(alloc, s, count),
        Ask::Wear(what) => wear(alloc, s, what),
        ask => make(alloc, s, ask),
    }
}

// Makes so many turns of the engine 1.
fn run(alloc: Global, s: &mut State, count: u8) -> Result<(), Halt> {
    for _ in 0..count {
        make(alloc, s, Ask::Turn(Reply::Works))?;
    }
    Ok(())
}

// Makes a step.
fn make(alloc: Global, s: &mut State, ask: Ask) -> Result<(), Halt> {
    let made = step_again(alloc, s, ask)?;
    apply(s, made)?;
    Ok(())
}

// A step. Where one allocation failed, it is asked for once more, of the same state.
fn step_again(alloc: Global, s: &State, ask: Ask) -> Result<Made, Halt> {
    match step(alloc, s, ask) {
        Err(Halt::Memory) => step(alloc, s, ask),
        made => made,
    }
}
