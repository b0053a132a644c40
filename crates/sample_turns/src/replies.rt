//! What the cloud answers to a request, where a reply is given.
ghost use Rattle.std.specs.Prelude.{◌≡◌, ◌≢◌, true, false, IfSome, IfOk};
ghost use Rattle.step_ends.specs.Answers.{AnswersAsk, AnswersPoll};

use core_state::Row;
use heat_plan::{Act, Answered, Facts, Properties};
use heat_value::Text;
use std::alloc::{AllocError, Global};

/// How a turn goes: as it should, or otherwise. A fault is one of the item's properties.
#[derive(Clone, Copy, Debug, PartialEq, Eq)]
pub enum Reply {
    Works,
    Waits,
    Quota,
    Fails,
    Breaks,
    Faults,
}

/// The answer to what is asked by this act; none where it can't have such a one.
pub(crate) fn ask_answer(act: Act, reply: Reply) -> Option<Answered>
    ensures { IfSome result (AnswersAsk act) }
{
    match act {
        Act::Create => match reply {
            Reply::Works => Some(Answered::Begun),
            Reply::Quota => Some(Answered::Quota),
            Reply::Fails => Some(Answered::Failed),
            Reply::Waits | Reply::Breaks | Reply::Faults => None,
        },
        Act::Update => match reply {
            Reply::Works => Some(Answered::Begun),
            Reply::Fails => Some(Answered::Failed),
            Reply::Waits | Reply::Quota | Reply::Breaks | Reply::Faults => None,
        },
        Act::Delete => match reply {
            Reply::Works => Some(Answered::Begun),
            Reply::Fails => Some(Answered::Failed),
            Reply::Waits | Reply::Quota | Reply::Breaks | Reply::Faults => None,
        },
        Act::Init | Act::Rollback => None,
    }
}

/// The answer to a poll of this row; none where it can't have such a one.
pub(crate) fn poll_answer(
    alloc: Global,
    row: &Row,
    reply: Reply,
) -> Result<Option<Answered>, AllocError>
    ensures { IfOk result (λ o. IfSome o (AnswersPoll row.now.act)) }
{
    match reply {
        Reply::Works => Ok(Some(done_answer(alloc, row)?)),
        Reply::Waits => Ok(Some(Answered::NotYet)),
        Reply::Fails => Ok(Some(Answered::Failed)),
        Reply::Breaks => broken_answer(alloc, row),
        Reply::Quota | Reply::Faults => Ok(None),
    }
}

// The answer of a resource that is ready, or gone.
fn done_answer(alloc: Global, row: &Row) -> Result<Answered, AllocError>
    ensures { IfOk result (AnswersPoll row.now.act) }
{
    if is_going(row.act) {
        return Ok(Answered::Gone);
    }
    Ok(Answered::Ready(facts_of(alloc, row)?))
}

// The answer of a resource that is broken; none where it is to go.
fn broken_answer(alloc: Global, row: &Row) -> Result<Option<Answered>, AllocError>
    ensures { IfOk result (λ o. IfSome o (AnswersPoll row.now.act)) }
{
    if is_going(row.act) {
        return Ok(None);
    }
    Ok(Some(Answered::Broken(Text::from_str(alloc, "X01")?)))
}

// Whether a row of this act is to go.
fn is_going(act: Act) -> bool
    ensures going { result ≡ true → act ≡ Act.Delete }
    ensures staying { result ≡ false → act ≢ Act.Delete }
{
    match act {
        Act::Init => false,
        Act::Create => false,
        Act::Update => false,
        Act::Delete => true,
        Act::Rollback => false,
    }
}

// The facts of a row that is ready: an id of its number, and no attributes.
fn facts_of(alloc: Global, row: &Row) -> Result<Facts, AllocError> {
    let id = format!(in alloc; "sim-{}", row.no.get())?;
    Ok(Facts {
        id: Text::from_string(id),
        attrs: Properties::new(alloc),
    })
}
