//! An engine's ask. All that any answer changes is made before the cloud is asked, so that no
//! answer is lost for want of memory.
ghost use Rattle.std.specs.Prelude.{◌≡◌, IfOk, IfErr};
ghost use Rattle.heat_plan.specs.declared.calls.Answered.TheVariants as answers;
ghost use Rattle.heat_plan.specs.declared.phase.Act.TheVariants.{Create};
ghost use Rattle.mail_table.specs.declared.mail.Stage.TheVariants.{Asking};
ghost use Rattle.step_relation.specs.Asks.{Calls};
ghost use Rattle.record_keeper.specs.Shown.{SameKeeper};
ghost use Rattle.book.specs.Behind.{Turns};
ghost use Rattle.book.specs.Keeping.{IsReady, IsStorable};
ghost use Rattle.book.specs.Makings.{IsQuietRefusal};
ghost use Rattle.book.specs.Outcomes.{AskIsMade, AskHasRoom, IsAnswered, IsCalled};
ghost use Rattle.book.specs.Scenes.{scene};
ghost use Rattle.book.specs.WorkableOver.{IsWorkable, IsWorkableOver};

use crate::answers::{ask_answered, create_refused};
use crate::called::called_row;
use crate::history::History;
use crate::making::{make_answered, make_room};
use crate::requests::ask;
use crate::turning::Turn;
use core_state::{Batch, Made, Row, State};
use heat_plan::{Act, Answered, EngineNo, Refusal, Token};
use provider::{Answer, Provider};
use record_keeper::Keeper;
use std::alloc::Global;
use step_parts::token_of;

/// The row's token, and the step for each answer; no quota refuses an update or a delete.
#[derive(Debug, Drop)]
pub(crate) struct AskOutcomes {
    pub token: Token,
    pub begun: Made,
    pub quota: Made,
    pub failed: Made,
}

/// Asks the cloud for what the row of an engine's job is to be, and makes the step of its answer.
pub(crate) fn ask_for<K: Keeper, P: Provider>(
    alloc: Global,
    state: &mut State,
    entries: &mut History,
    keeper: &mut K,
    cloud: &mut P,
    e: EngineNo,
) -> Turn
    requires calls { Calls state.old.state e Asking }
    requires workable { IsWorkableOver state.old.state entries.old.items (P.cloud cloud.old) }
    requires ready { IsReady (K.shown keeper.old) state.old.state }
    ensures { Turns e
        (scene state.old.state entries.old.items (P.cloud cloud.old))
        (scene state.new.state entries.new.items (P.cloud cloud.new))
        (K.shown keeper.old) (K.shown keeper.new) (K.faults keeper.old) (K.faults keeper.new) result }
{
    match prepare(alloc, state, entries, keeper, e) {
        Ok(outcomes) => ask_prepared(state, entries, keeper, cloud, e, outcomes),
        Err(Refusal::Worn) => Turn::Worn,
        Err(_) => Turn::Memory,
    }
}

// The steps of all answers, and room for each of them.
fn prepare<K: Keeper>(
    alloc: Global,
    state: &mut State,
    entries: &mut History,
    keeper: &mut K,
    e: EngineNo,
) -> Result<AskOutcomes, Refusal>
    requires calls { Calls state.old.state e Asking }
    requires workable { IsWorkable state.old.state }
    ensures state { state.new.state ≡ state.old.state }
    ensures entries { entries.new.items ≡ entries.old.items }
    ensures shown { SameKeeper (K.shown keeper.old) (K.shown keeper.new) }
    ensures faults { K.faults keeper.new ≡ K.faults keeper.old }
    ensures made { IfOk result (AskIsMade state.old.state e) }
    ensures room { IfOk result
        (AskHasRoom (K.has_room keeper.new) state.new.spare entries.new.spare) }
    ensures cause { IfErr result (IsQuietRefusal state.old.state e) }
{
    let outcomes = outcomes_of(alloc, state, e)?;
    make_room(state, entries, keeper, &outcomes.begun)?;
    make_room(state, entries, keeper, &outcomes.quota)?;
    make_room(state, entries, keeper, &outcomes.failed)?;
    Ok(outcomes)
}

// The token, and the step of each answer.
fn outcomes_of(alloc: Global, state: &State, e: EngineNo) -> Result<AskOutcomes, Refusal>
    requires calls { Calls state.now.state e Asking }
    requires workable { IsWorkable state.now.state }
    ensures made { IfOk result (AskIsMade state.now.state e) }
    ensures cause { IfErr result (IsQuietRefusal state.now.state e) }
{
    let row = called_row(state, e);
    let token = token_of(row)?;
    let begun = ask_answered(alloc, state, e, &Answered::Begun)?;
    let (quota, failed) = refused(alloc, state, e, row)?;
    Ok(AskOutcomes {
        token,
        begun,
        quota,
        failed,
    })
}

// The steps of a quota, where a create is asked, and of a failure: of one layout of the rollback. Where
// something else is asked, none of a quota, since none then comes.
fn refused(alloc: Global, state: &State, e: EngineNo, row: &Row) -> Result<(Made, Made), Refusal>
    requires calls { Calls state.now.state e Asking }
    requires workable { IsWorkable state.now.state }
    requires row { IsCalled state.now.state e row.now }
    ensures quota { IfOk result (λ both. row.now.act ≡ Create
        → IsAnswered state.now.state e answers.Quota both.0) }
    ensures failed { IfOk result (λ both. IsAnswered state.now.state e answers.Failed both.1) }
    ensures storable { IfOk result (λ both. IsStorable state.now.state both.0.changes) }
    ensures cause { IfErr result (IsQuietRefusal state.now.state e) }
{
    match row.act {
        Act::Create => create_refused(alloc, state, e),
        Act::Init | Act::Update | Act::Delete | Act::Rollback => {
            let none = Made::new(alloc, Batch::new(alloc), Batch::new(alloc))?;
            let failed = ask_answered(alloc, state, e, &Answered::Failed)?;
            Ok((none, failed))
        }
    }
}

// Asks, and makes the step that was prepared for the answer.
fn ask_prepared<K: Keeper, P: Provider>(
    state: &mut State,
    entries: &mut History,
    keeper: &mut K,
    cloud: &mut P,
    e: EngineNo,
    outcomes: AskOutcomes,
) -> Turn
    requires calls { Calls state.old.state e Asking }
    requires workable { IsWorkableOver state.old.state entries.old.items (P.cloud cloud.old) }
    requires ready { IsReady (K.shown keeper.old) state.old.state }
    requires made { AskIsMade state.old.state e outcomes }
    requires room { AskHasRoom (K.has_room keeper.old) state.old.spare entries.old.spare outcomes }
    ensures { Turns e
        (scene state.old.state entries.old.items (P.cloud cloud.old))
        (scene state.new.state entries.new.items (P.cloud cloud.new))
        (K.shown keeper.old) (K.shown keeper.new) (K.faults keeper.old) (K.faults keeper.new) result }
{
    match ask(cloud, &outcomes.token, called_row(state, e)) {
        Answer::Begun => make_answered(state, entries, keeper, outcomes.begun),
        Answer::Quota => make_answered(state, entries, keeper, outcomes.quota),
        Answer::Failed => make_answered(state, entries, keeper, outcomes.failed),
        Answer::Memory => Turn::Memory,
    }
}
