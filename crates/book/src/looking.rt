//! An engine's question whether a resource that was sent away is gone. The steps of all answers are
//! made before the cloud is asked.
ghost use Rattle.std.specs.Prelude.{◌≡◌, IfOk, IfErr};
ghost use Rattle.heat_plan.specs.declared.phase.Act.TheVariants.{Delete};
ghost use Rattle.mail_table.specs.declared.mail.Stage.TheVariants.{Polling};
ghost use Rattle.step_relation.specs.Asks.{Calls};
ghost use Rattle.record_keeper.specs.Shown.{SameKeeper};
ghost use Rattle.book.specs.Behind.{Turns};
ghost use Rattle.book.specs.Keeping.{IsReady};
ghost use Rattle.book.specs.Makings.{IsQuietRefusal};
ghost use Rattle.book.specs.Outcomes.{GoneIsMade, GoneHasRoom};
ghost use Rattle.book.specs.Scenes.{scene};
ghost use Rattle.book.specs.WorkableOver.{IsWorkable, IsWorkableOver};

use crate::answers::poll_answered;
use crate::called::called_row;
use crate::history::History;
use crate::making::{make_answered, make_room};
use crate::requests::look;
use crate::turning::Turn;
use core_state::{Made, State};
use heat_plan::{Answered, EngineNo, Refusal, Token};
use provider::{Gone, Provider};
use record_keeper::Keeper;
use std::alloc::Global;
use step_parts::token_of;

/// The row's token, and the step for each answer.
#[derive(Debug, Drop)]
pub(crate) struct GoneOutcomes {
    pub token: Token,
    pub gone: Made,
    pub not_yet: Made,
    pub failed: Made,
}

/// Asks whether the resource of an engine's job is gone, and makes the step of the answer.
pub(crate) fn look_for<K: Keeper, P: Provider>(
    alloc: Global,
    state: &mut State,
    entries: &mut History,
    keeper: &mut K,
    cloud: &mut P,
    e: EngineNo,
) -> Turn
    requires calls { Calls state.old.state e Polling }
    requires goes { (k : Calls state.old.state e Polling) → k.row.act ≡ Delete }
    requires workable { IsWorkableOver state.old.state entries.old.items (P.cloud cloud.old) }
    requires ready { IsReady (K.shown keeper.old) state.old.state }
    ensures { Turns e
        (scene state.old.state entries.old.items (P.cloud cloud.old))
        (scene state.new.state entries.new.items (P.cloud cloud.new))
        (K.shown keeper.old) (K.shown keeper.new) (K.faults keeper.old) (K.faults keeper.new) result }
{
    match prepare(alloc, state, entries, keeper, e) {
        Ok(outcomes) => look_prepared(state, entries, keeper, cloud, e, outcomes),
        Err(Refusal::Worn) => Turn::Worn,
        Err(_) => Turn::Memory,
    }
}

// The steps of all answers, and room for each of them.
fn prepare<K: Keeper>(
    alloc: Global,
    state: &mut State,
    entries: &mut History,
    keeper: &mut K,
    e: EngineNo,
) -> Result<GoneOutcomes, Refusal>
    requires calls { Calls state.old.state e Polling }
    requires goes { (k : Calls state.old.state e Polling) → k.row.act ≡ Delete }
    requires workable { IsWorkable state.old.state }
    ensures state { state.new.state ≡ state.old.state }
    ensures entries { entries.new.items ≡ entries.old.items }
    ensures shown { SameKeeper (K.shown keeper.old) (K.shown keeper.new) }
    ensures faults { K.faults keeper.new ≡ K.faults keeper.old }
    ensures made { IfOk result (GoneIsMade state.old.state e) }
    ensures room { IfOk result
        (GoneHasRoom (K.has_room keeper.new) state.new.spare entries.new.spare) }
    ensures cause { IfErr result (IsQuietRefusal state.old.state e) }
{
    let outcomes = outcomes_of(alloc, state, e)?;
    make_room(state, entries, keeper, &outcomes.gone)?;
    make_room(state, entries, keeper, &outcomes.not_yet)?;
    make_room(state, entries, keeper, &outcomes.failed)?;
    Ok(outcomes)
}

// The token, and the step of each answer.
fn outcomes_of(alloc: Global, state: &State, e: EngineNo) -> Result<GoneOutcomes, Refusal>
    requires calls { Calls state.now.state e Polling }
    requires goes { (k : Calls state.now.state e Polling) → k.row.act ≡ Delete }
    ensures made { IfOk result (GoneIsMade state.now.state e) }
    ensures cause { IfErr result (IsQuietRefusal state.now.state e) }
{
    Ok(GoneOutcomes {
        token: token_of(called_row(state, e))?,
        gone: poll_answered(alloc, state, e, &Answered::Gone)?,
        not_yet: poll_answered(alloc, state, e, &Answered::NotYet)?,
        failed: poll_answered(alloc, state, e, &Answered::Failed)?,
    })
}

// Asks, and makes the step that was prepared for the answer.
fn look_prepared<K: Keeper, P: Provider>(
    state: &mut State,
    entries: &mut History,
    keeper: &mut K,
    cloud: &mut P,
    e: EngineNo,
    outcomes: GoneOutcomes,
) -> Turn
    requires calls { Calls state.old.state e Polling }
    requires goes { (k : Calls state.old.state e Polling) → k.row.act ≡ Delete }
    requires workable { IsWorkableOver state.old.state entries.old.items (P.cloud cloud.old) }
    requires ready { IsReady (K.shown keeper.old) state.old.state }
    requires made { GoneIsMade state.old.state e outcomes }
    requires room { GoneHasRoom (K.has_room keeper.old) state.old.spare entries.old.spare outcomes }
    ensures { Turns e
        (scene state.old.state entries.old.items (P.cloud cloud.old))
        (scene state.new.state entries.new.items (P.cloud cloud.new))
        (K.shown keeper.old) (K.shown keeper.new) (K.faults keeper.old) (K.faults keeper.new) result }
{
    match look(cloud, &outcomes.token) {
        Gone::Gone => make_answered(state, entries, keeper, outcomes.gone),
        Gone::NotYet => make_answered(state, entries, keeper, outcomes.not_yet),
        Gone::Failed => make_answered(state, entries, keeper, outcomes.failed),
        Gone::Memory => Turn::Memory,
    }
}
