//! The turn of an engine whose request was answered.
ghost use Rattle.std.specs.Prelude.{◌≡◌, ◌≢◌, IfErr, IfOk};
ghost use Rattle.heat_plan.specs.declared.calls.Answered.TheVariants as answers;
ghost use Rattle.heat_plan.specs.declared.phase.Act.TheVariants.{Create, Delete};
ghost use Rattle.mail_table.specs.declared.mail.Stage.TheVariants.{Asking, Polling};
ghost use Rattle.step_relation.specs.Asks.{Calls};
ghost use Rattle.takeover_steps.specs.Answers.{AnswersAsk, AnswersPoll};
ghost use Rattle.takeover_steps.specs.Lost.{IsOfUnknownSize};
ghost use Rattle.book.specs.Makings.{IsQuietRefusal};
ghost use Rattle.book.specs.Outcomes.{IsAnswered};

use core_state::{Made, State};
use heat_plan::{Answered, EngineNo, Refusal};
use std::alloc::Global;
use takeover_steps::{asked, broken, polled, refused_creates};

/// The turn that an ask's answer brings.
pub(crate) fn ask_answered(
    alloc: Global,
    state: &State,
    e: EngineNo,
    answer: &Answered,
) -> Result<Made, Refusal>
    requires calls { Calls state.now.state e Asking }
    requires answer { (k : Calls state.now.state e Asking) → AnswersAsk k.row.act answer.now }
    ensures made { IfOk result (IsAnswered state.now.state e answer.now) }
    ensures cause { IfErr result (IsQuietRefusal state.now.state e) }
{
    asked(alloc, state, e, answer)
}

/// The turns that a quota and a failure bring, where a create is asked.
pub(crate) fn create_refused(
    alloc: Global,
    state: &State,
    e: EngineNo,
) -> Result<(Made, Made), Refusal>
    requires calls { Calls state.now.state e Asking }
    requires creates { (k : Calls state.now.state e Asking) → k.row.act ≡ Create }
    ensures quota { IfOk result (λ both. IsAnswered state.now.state e answers.Quota both.0) }
    ensures failed { IfOk result (λ both. IsAnswered state.now.state e answers.Failed both.1) }
    ensures cause { IfErr result (IsQuietRefusal state.now.state e) }
{
    refused_creates(alloc, state, e)
}

/// The turn that a poll's answer brings.
pub(crate) fn poll_answered(
    alloc: Global,
    state: &State,
    e: EngineNo,
    answer: &Answered,
) -> Result<Made, Refusal>
    requires calls { Calls state.now.state e Polling }
    requires answer { (k : Calls state.now.state e Polling) → AnswersPoll k.row.act answer.now }
    ensures made { IfOk result (IsAnswered state.now.state e answer.now) }
    ensures cause { IfErr result (IsQuietRefusal state.now.state e) }
{
    polled(alloc, state, e, answer)
}

/// The turn that a poll's answer of unknown size brings; where the resource is broken it is made of the turn
/// of a failure, so that no rollback is laid out again.
pub(crate) fn poll_told(
    alloc: Global,
    state: &State,
    e: EngineNo,
    answer: &Answered,
    failed: Made,
) -> Result<Made, Refusal>
    requires calls { Calls state.now.state e Polling }
    requires stays { (k : Calls state.now.state e Polling) → k.row.act ≢ Delete }
    requires size { IsOfUnknownSize answer.now }
    requires failed { IsAnswered state.now.state e answers.Failed failed }
    ensures made { IfOk result (IsAnswered state.now.state e answer.now) }
{
    match answer {
        Answered::Broken(code) => Ok(broken(alloc, failed, code)?),
        Answered::Begun | Answered::Quota | Answered::Failed => {
            poll_answered(alloc, state, e, answer)
        }
        Answered::NotYet | Answered::Ready(_) | Answered::Gone => {
            poll_answered(alloc, state, e, answer)
        }
    }
}
