//! What an entry says, in short.
use crate::outputs::plan;
use crate::parts::{engine, ready, res_name, row, row_no, stack, text, trav};
use core_state::{Cause, EngineChange, Row, RowWrite, ShowWhat, What, Why};
use heat_plan::{Act, Plan, Status};
use heat_value::Seq;
use std::process::Abort;

/// A traversal of `s` begins, without a plan or with that of the outputs; it ends well, or by an update
/// that is broken; a row of `s` is set or purged; `s` is shown; the engines are restarted; the input ends.
#[derive(Clone, Copy)]
pub(crate) enum Say {
    Begins(Act),
    BeginsWithOutputs(Act),
    Completes(Act),
    Breaks,
    Sets(u64, &'static str, Act, Status),
    SetsReady(u64, &'static str, Act, &'static str),
    SetsReplaced(u64, &'static str, u64, &'static str),
    Purges(u64),
    Shows(ShowWhat),
    Restarts,
    Closes,
}

/// What the entry has.
pub(crate) fn said(rt: &(impl Abort + AllocGlobal), say: Say) -> What {
    match say {
        Say::Begins(act) => begins(rt, act, None),
        Say::BeginsWithOutputs(act) => begins(rt, act, Some(plan(rt))),
        Say::Completes(act) => ends(rt, act, None),
        Say::Breaks => ends(rt, Act::Update, Some(broken(rt))),
        Say::Sets(no, name, act, status) => sets(rt, row(rt, no, name, act, status)),
        Say::SetsReady(no, name, act, id) => sets(rt, ready(rt, no, name, act, id)),
        Say::SetsReplaced(no, name, by, id) => sets(rt, replaced(rt, no, name, by, id)),
        Say::Purges(no) => writes(rt, RowWrite::Purge(row_no(rt, no))),
        Say::Shows(what) => shows(rt, what),
        Say::Restarts => What::Engine {
            change: EngineChange::Restart(engine(rt, 7), 3),
        },
        Say::Closes => What::Closed,
    }
}

// The traversal 1 of `s` begins.
fn begins(rt: &(impl Abort + AllocGlobal), act: Act, plan: Option<Plan>) -> What {
    What::Command {
        stack: stack(rt),
        trav: trav(rt, 1),
        act,
        plan,
        rollback: false,
    }
}

// The traversal 2 of `s` ends.
fn ends(rt: &(impl Abort + AllocGlobal), act: Act, cause: Option<Cause>) -> What {
    What::Mark {
        stack: stack(rt),
        trav: trav(rt, 2),
        act,
        cause,
    }
}

// An update that is broken.
fn broken(rt: &(impl Abort + AllocGlobal)) -> Cause {
    Cause {
        name: res_name(rt, "a"),
        row: row_no(rt, 3),
        why: Why::Broken(Act::Update, text(rt, "no_host")),
    }
}

// A row that another replaced.
fn replaced(rt: &(impl Abort + AllocGlobal), no: u64, name: &str, by: u64, id: &str) -> Row {
    let mut old = ready(rt, no, name, Act::Update, id);
    old.replaced_by = Some(row_no(rt, by));
    old
}

// A row is set.
fn sets(rt: &(impl Abort + AllocGlobal), row: Row) -> What {
    writes(rt, RowWrite::Set(row))
}

// A write of a row.
fn writes(rt: &(impl Abort + AllocGlobal), write: RowWrite) -> What {
    let mut writes = Seq::new(rt.alloc());
    writes.push(write).expect(rt, "memory");
    What::Rows { writes }
}

// A listing of `s`.
fn shows(rt: &(impl Abort + AllocGlobal), what: ShowWhat) -> What {
    What::Show {
        what,
        stack: stack(rt),
    }
}
