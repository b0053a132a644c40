//! What is asked for a row, and why a traversal fails by an answer.
ghost use Rattle.std.specs.Prelude.{IfOk};
ghost use Rattle.step_relation.specs.Asks.{Asks, Polls};
ghost use Rattle.step_ends.specs.Answers.{IsAsking, IsFailing, IsReason};

use command_steps::final_props;
use core_state::{Row, Why};
use heat_plan::{Act, Answered, Request};
use heat_value::TryCopy;
use std::alloc::AllocError;

/// What is asked for a row, by its act.
pub fn asked_for(row: &Row) -> Result<Request, AllocError>
    requires { IsAsking row.now.act }
    ensures { IfOk result (Asks row.now) }
{
    match row.act {
        Act::Create => Ok(Request::Create(row.kind.name.copy()?, row.props.copy()?)),
        Act::Update => Ok(Request::Update(final_props(row)?)),
        Act::Delete => Ok(Request::Delete),
        Act::Init | Act::Rollback => unreachable!(),
    }
}

/// What a row is polled by.
pub fn polled_by(row: &Row) -> Request
    ensures { Polls row.now result }
{
    match row.act {
        Act::Delete => Request::Gone,
        Act::Init | Act::Create | Act::Update | Act::Rollback => Request::Poll,
    }
}

/// Why a traversal fails by an answer.
pub fn reason_of(act: Act, answer: &Answered) -> Result<Why, AllocError>
    requires { IsFailing answer.now }
    ensures { IfOk result (IsReason act answer.now) }
{
    match answer {
        Answered::Quota => Ok(Why::Quota),
        Answered::Failed => Ok(Why::Failed(act)),
        Answered::Broken(code) => Ok(Why::Broken(act, code.copy()?)),
        Answered::Begun | Answered::NotYet | Answered::Ready(_) | Answered::Gone => {
            unreachable!()
        }
    }
}
