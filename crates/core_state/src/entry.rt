//! The entries of the history: what each step did, in the order in which it did it.

use crate::forecast::Forecast;
use heat_plan::{
    Act, Answered, EngineNo, LetterNo, Plan, Request, ResName, RowNo, StackName, Token, TravNo,
};
use heat_value::{Path, Seq, Text};
use mail_table::{Job, Letter};
use row_table::Row;

/// Who made an entry: the reader of commands, or an engine.
#[derive(Clone, Copy, Debug, PartialEq, Eq)]
pub enum Actor {
    Main,
    Engine(EngineNo),
}

/// What was shown of a stack.
#[derive(Clone, Copy, Debug, PartialEq, Eq)]
pub enum ShowWhat {
    Status,
    Resources,
    Outputs,
}

/// An engine came, was stopped, or was followed by so many at a restart, the first of this number.
#[derive(Clone, Copy, Debug, PartialEq, Eq)]
pub enum EngineChange {
    Start(EngineNo),
    Stop(EngineNo),
    Restart(EngineNo, u8),
}

/// Why a traversal failed at a row.
#[derive(Debug)]
pub enum Why {
    Quota,
    Failed(Act),
    Broken(Act, Text),
    Resolve(Text, Path),
}

impl Drop for Why {
    fn drop(self) {
        match self {
            Why::Quota => {}
            Why::Failed(_) => {}
            Why::Broken(_, _) => {}
            Why::Resolve(_, _) => {}
        }
    }
}

/// The resource at which a traversal failed, its row, and why.
#[derive(Debug)]
pub struct Cause {
    pub name: ResName,
    pub row: RowNo,
    pub why: Why,
}

impl Drop for Cause {
    fn drop(self) {
        let Cause {
            name: _,
            row: _,
            why: _,
        } = self;
    }
}

/// A row was written, or is gone.
#[derive(Debug, Drop)]
pub enum RowWrite {
    Set(Row),
    Purge(RowNo),
}

/// A letter was sent or dropped, or a job was given a form or ended.
#[derive(Debug)]
pub enum MailWrite {
    Sent(Letter),
    Dropped(LetterNo),
    Held(Job),
    Ended(EngineNo),
}

impl Drop for MailWrite {
    fn drop(self) {
        match self {
            MailWrite::Sent(_) => {}
            MailWrite::Dropped(_) => {}
            MailWrite::Held(_) => {}
            MailWrite::Ended(_) => {}
        }
    }
}

/// What happened. A command tells whether a failure of it is rolled back. A resource whose token is
/// released stays, and the engine gives it up. A mark without a cause says that the traversal is complete.
#[derive(Debug)]
pub enum What {
    /// A traversal of a stack began; an update's rollback flag is told with it.
    Command {
        stack: StackName,
        trav: TravNo,
        act: Act,
        plan: Option<Plan>,
        rollback: bool,
    },
    /// The cloud was asked, and answered.
    Call {
        token: Token,
        request: Request,
        answer: Answered,
    },
    /// A token was given up.
    Release {
        token: Token,
    },
    /// A traversal was marked: complete, or failed for this cause.
    Mark {
        stack: StackName,
        trav: TravNo,
        act: Act,
        cause: Option<Cause>,
    },
    /// Rows were written or dropped.
    Rows {
        writes: Seq<RowWrite>,
    },
    /// Letters were sent or dropped, and jobs put or ended.
    Mail {
        writes: Seq<MailWrite>,
    },
    /// Engines were stopped or enlisted.
    Engine {
        change: EngineChange,
    },
    /// Something of a stack is shown.
    Show {
        what: ShowWhat,
        stack: StackName,
    },
    /// The line of this number was refused with a code, at a place of its body where one is to blame.
    Note {
        line: u64,
        code: Text,
        path: Option<Path>,
    },
    /// A run of turns ended, idle or not, after so many.
    Ran {
        idle: bool,
        turns: u128,
    },
    /// A turn that was asked for by number made no step: the engine had nothing to do, or isn't live.
    Turned {
        engine: EngineNo,
        lost: bool,
    },
    /// What an update of a stack would do.
    Preview {
        stack: StackName,
        forecast: Forecast,
    },
    /// No more lines are read.
    Closed,
}

impl Drop for What {
    fn drop(self) {
        match self {
            What::Command {
                stack: _,
                trav: _,
                act: _,
                plan: _,
                rollback: _,
            } => {}
            What::Call {
                token: _,
                request: _,
                answer: _,
            } => {}
            What::Release { token: _ } => {}
            What::Mark {
                stack: _,
                trav: _,
                act: _,
                cause: _,
            } => {}
            What::Rows { writes: _ } => {}
            What::Mail { writes: _ } => {}
            What::Engine { change: _ } => {}
            What::Show { what: _, stack: _ } => {}
            What::Note {
                line: _,
                code: _,
                path: _,
            } => {}
            What::Ran { idle: _, turns: _ } => {}
            What::Turned { engine: _, lost: _ } => {}
            What::Preview {
                stack: _,
                forecast: _,
            } => {}
            What::Closed => {}
        }
    }
}

/// One entry of the history: who made it, and what happened.
#[derive(Debug, Drop)]
pub struct Entry {
    pub by: Actor,
    pub what: What,
}
