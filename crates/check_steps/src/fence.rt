//! The fence: whether an engine's next step is still the one that was looked at.
ghost use Rattle.std.specs.Prelude.{◌≡◌, ◌↔◌, IsTrue};
ghost use Rattle.std.specs.Bool.{OnTrue, OnFalse};
ghost use Rattle.step_relation.specs.Nexts.{Works};
ghost use Rattle.check_steps.specs.AtUpdate.{HasPoint};
ghost use Rattle.check_steps.specs.Looks.{HasNext, IsOther, IsWork};
ghost use Rattle.check_steps.specs.Parts.{parts_read};

use crate::begin_parts::{Parts, begun_parts};
use crate::looks::{BeginWork, Work};
use core_state::{Job, State};
use heat_plan::EngineNo;
use heat_value::Equals;
use step_reads::{Task, next_of};

/// Whether an engine has a next step, and it isn't the one that was looked at.
pub fn is_overtaken(s: &State, e: EngineNo, work: &Work) -> bool
    requires { HasPoint s.now.state e }
    ensures yes { OnTrue result (IsOther s.now.state e work.now) }
    ensures no_ { OnFalse result (HasNext s.now.state e → IsWork s.now.state e work.now) }
{
    match next_of(s, e) {
        Task::Lost => false,
        Task::Idle => false,
        Task::Take(_) => is_begin(work),
        Task::TakeOver(_) => is_begin(work),
        Task::Work(job) => is_another(s, e, job, work),
    }
}

// Whether something is to be prepared for the step.
fn is_begin(work: &Work) -> bool
    ensures yes { OnTrue result (¬ (work.now ≡ Work.Plain)) }
    ensures no_ { OnFalse result (work.now ≡ Work.Plain) }
{
    match work {
        Work::Begin(_) => true,
        Work::Plain => false,
    }
}

// Whether the next step of an engine's job is another than the one that was looked at.
fn is_another(s: &State, e: EngineNo, job: &Job, work: &Work) -> bool
    requires works { Works s.now.state e job.now job.now.stage }
    requires points { HasPoint s.now.state e }
    ensures yes { OnTrue result (¬ IsWork s.now.state e work.now) }
    ensures no_ { OnFalse result (IsWork s.now.state e work.now) }
{
    match begun_parts(s, e, job) {
        Some(parts) => match work {
            Work::Begin(begin) => !is_read(&parts, begin),
            Work::Plain => true,
        },
        None => match work {
            Work::Begin(_) => true,
            Work::Plain => false,
        },
    }
}

// Whether a begin still reads what was looked at.
fn is_read(parts: &Parts<'_>, work: &BeginWork) -> bool
    ensures { IsTrue result ↔ (parts_read parts.now ≡ work.now) }
{
    parts.row.no == work.row
        && parts.row.key == work.key
        && parts.item.equals(&work.item)
        && parts.row.props.equals(&work.props)
        && parts.point.inputs.equals(&work.inputs)
        && parts.plan.plan().equals(work.plan.plan())
}
