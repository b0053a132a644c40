//! What a few changes leave of a state.
use crate::parts::{engine_no, letter_no, res_name, row_no, stack_name, trav_no};
use core_state::{
    Batch, Change, Job, Letter, Next, Numbers, Point, Ready, Stack, Stage, State, ready_all,
};
use heat_plan::{Act, StackName, StackNo, Status};
use heat_value::Seq;
use std::alloc::{AllocError, Global};
use traversal_graph::{Node, TravGraph};

// A letter of this number to the first node.
fn letter(alloc: Global, no: u64) -> Result<Letter, AllocError> {
    let no = letter_no(no)?;
    let trav = trav_no(1)?;
    Ok(Letter {
        no,
        stack: stack_name(alloc, b's')?,
        trav,
        node: 0,
    })
}

// A stack of this number.
fn stack(alloc: Global, letter: u8, no: u64) -> Result<Stack, AllocError> {
    let trav = trav_no(no)?;
    let no = StackNo::new(no).ok_or(AllocError)?;
    Ok(Stack {
        name: stack_name(alloc, letter)?,
        no,
        trav,
        act: Act::Create,
        status: Status::InProgress,
        plan: None,
    })
}

// The one node of a graph.
fn node(alloc: Global) -> Result<Node, AllocError> {
    let row = row_no(1)?;
    let name = res_name(alloc, b'a')?;
    Ok(Node::U(name, row))
}

// A graph of one node.
fn graph(alloc: Global) -> Result<TravGraph, AllocError> {
    let mut nodes = Seq::new(alloc);
    nodes.push(node(alloc)?)?;
    Ok(TravGraph {
        nodes,
        edges: Seq::new(alloc),
    })
}

// Makes one change that applies; one that doesn't fails as if memory were wanted.
fn change(alloc: Global, state: &mut State, change: Change) -> Result<(), AllocError> {
    state.apply(alloc, change).ok().ok_or(AllocError)
}

fn put_stack(alloc: Global, state: &mut State, name: u8, no: u64) -> Result<(), AllocError> {
    let put = stack(alloc, name, no)?;
    change(alloc, state, Change::PutStack(put))
}

fn send(alloc: Global, state: &mut State, no: u64) -> Result<(), AllocError> {
    let sent = letter(alloc, no)?;
    change(alloc, state, Change::Send(sent))
}

fn hold(alloc: Global, state: &mut State) -> Result<(), AllocError> {
    let engine = engine_no(1)?;
    let row = row_no(1)?;
    let letter = letter(alloc, 1)?;
    let job = Job {
        engine,
        letter,
        row,
        stage: Stage::Taken,
    };
    change(alloc, state, Change::PutJob(job))
}

fn put_graph(alloc: Global, state: &mut State) -> Result<(), AllocError> {
    let put = graph(alloc)?;
    let name = stack_name(alloc, b's')?;
    change(alloc, state, Change::PutGraph(name, put))
}

fn put_point(alloc: Global, state: &mut State) -> Result<(), AllocError> {
    let stack = stack_name(alloc, b's')?;
    let point = Point {
        stack,
        node: 0,
        inputs: Seq::new(alloc),
        done: true,
    };
    change(alloc, state, Change::PutPoint(point))
}

// Whether the stacks have these numbers, in the table's order.
fn has_stacks(state: &State, wanted: &[u64]) -> bool {
    let stacks = state.stacks();
    if stacks.len() != wanted.len() {
        return false;
    }
    for (i, stack) in stacks.iter().enumerate() {
        if stack.no.get() != wanted[i] {
            return false;
        }
    }
    true
}

// Puts three stacks, two of them of one name.
fn put_stacks(alloc: Global, state: &mut State) -> Result<(), AllocError> {
    put_stack(alloc, state, b's', 1)?;
    put_stack(alloc, state, b't', 2)?;
    put_stack(alloc, state, b's', 3)
}

// Whether a copy of the state has stacks of these numbers.
fn is_copied(state: &State, wanted: &[u64]) -> bool {
    match state.copy() {
        Ok(copy) => has_stacks(&copy, wanted),
        Err(_) => false,
    }
}

// Whether the third stack stands in the place of the first, and does in a copy.
fn are_stacks_put(alloc: Global, state: &mut State) -> Result<bool, AllocError> {
    put_stacks(alloc, state)?;
    Ok(has_stacks(state, &[3, 2]) && is_copied(state, &[3, 2]))
}

// Whether one letter waits, of two of which the first is dropped.
fn is_a_letter_dropped(alloc: Global, state: &mut State) -> Result<bool, AllocError> {
    send(alloc, state, 1)?;
    send(alloc, state, 2)?;
    change(alloc, state, Change::Drop(letter_no(1)?))?;
    Ok(state.letters().len() == 1)
}

// Whether a job is held, and then ended.
fn is_a_job_held(alloc: Global, state: &mut State) -> Result<bool, AllocError> {
    let engine = engine_no(1)?;
    hold(alloc, state)?;
    let held = state.job(&engine).is_some();
    change(alloc, state, Change::EndJob(engine))?;
    Ok(held && state.job(&engine).is_none())
}

// Enlists an engine and sets the numbers.
fn opening(alloc: Global) -> Result<Batch<Change>, AllocError> {
    let engine = engine_no(1)?;
    let mut changes = Batch::new(alloc);
    changes.push(Change::Enlist(engine))?;
    changes.push(Change::Numbers(Numbers::first()))?;
    Ok(changes)
}

// Whether an engine is live behind an opening, and the next row is the first.
fn is_opened(alloc: Global, state: &mut State) -> Result<bool, AllocError> {
    let changes = ready_all(alloc, opening(alloc)?)?;
    if state.reserve(changes.len()).is_ok() {
        state.apply_all(changes);
    }
    Ok(state.live().len() == 1 && state.next().row == Next::first())
}

// Whether the first node of the stack's graph is done.
fn is_done(state: &State, stack: &StackName) -> bool {
    match state.graph(stack) {
        Some(graph) => graph.points.get(0).is_some_and(|point| point.done),
        None => false,
    }
}

// Whether a node's point is put into its stack's graph.
fn is_a_point_put(alloc: Global, state: &mut State) -> Result<bool, AllocError> {
    put_stack(alloc, state, b's', 1)?;
    put_graph(alloc, state)?;
    put_point(alloc, state)?;
    Ok(is_done(state, &stack_name(alloc, b's')?))
}

// Whether the state equals its copy, until one more letter waits.
fn is_told_apart(alloc: Global, state: &mut State) -> Result<bool, AllocError> {
    put_stack(alloc, state, b's', 1)?;
    let before = state.copy()?;
    if !state.equals(&before) {
        return Ok(false);
    }
    send(alloc, state, 1)?;
    Ok(!state.equals(&before))
}

// Whether the state's one graph, and no past, are told, and a change with its memory tells the change.
fn are_lists_told(alloc: Global, state: &mut State) -> Result<bool, AllocError> {
    put_stack(alloc, state, b's', 1)?;
    put_graph(alloc, state)?;
    let made = Ready::new(alloc, Change::Enlist(engine_no(1)?))?;
    let told = matches!(made.change(), Change::Enlist(_));
    Ok(told && state.graphs().len() == 1 && state.pasts().is_empty())
}

// What is to hold of a state that holds nothing at first.
#[derive(Clone, Copy)]
enum What {
    StacksArePut,
    ALetterIsDropped,
    AJobIsHeld,
    IsOpened,
    APointIsPut,
    IsToldApart,
    ListsAreTold,
}

fn holds_in(alloc: Global, state: &mut State, what: What) -> Result<bool, AllocError> {
    match what {
        What::StacksArePut => are_stacks_put(alloc, state),
        What::ALetterIsDropped => is_a_letter_dropped(alloc, state),
        What::AJobIsHeld => is_a_job_held(alloc, state),
        What::IsOpened => is_opened(alloc, state),
        What::APointIsPut => is_a_point_put(alloc, state),
        What::IsToldApart => is_told_apart(alloc, state),
        What::ListsAreTold => are_lists_told(alloc, state),
    }
}

fn holds(alloc: Global, what: What) -> Result<bool, AllocError> {
    let mut state = State::new(alloc);
    holds_in(alloc, &mut state, what)
}

const CASES: &[(&str, What)] = &[
    (
        "a record is put in the place of its key",
        What::StacksArePut,
    ),
    ("a dropped letter is gone", What::ALetterIsDropped),
    ("a job is held until it ends", What::AJobIsHeld),
    ("changes are made in order", What::IsOpened),
    ("a point is put into its graph", What::APointIsPut),
    ("a state equals its copy alone", What::IsToldApart),
    ("graphs, pasts and a change are told", What::ListsAreTold),
];

#[test]
fn changes_leave_what_they_say(rt: HostRuntime) -> Result<(), AllocError> {
    for case in CASES {
        assert!(rt; holds(rt.alloc(), case.1)?, "{}", case.0);
    }
    Ok(())
}
