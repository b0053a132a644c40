//! An engine's poll. The steps of answers whose size is known are made before the cloud is asked.
//! Where facts or a code come and there is no memory to store them, the call alone is told.
ghost use Rattle.std.specs.Prelude.{◌≡◌, ◌≢◌, ◌<◌, ◌≤◌, IfOk, IfErr};
ghost use Rattle.heat_plan.specs.declared.phase.Act.TheVariants.{Delete};
ghost use Rattle.heat_plan.specs.declared.calls.Answered.TheVariants as answers;
ghost use Rattle.mail_table.specs.declared.mail.Stage.TheVariants.{Polling};
ghost use Rattle.step_relation.specs.Asks.{Calls};
ghost use Rattle.step_relation.specs.Rows.{token_of};
ghost use Rattle.takeover_steps.specs.Lost.{IsOfUnknownSize};
ghost use Rattle.record_keeper.specs.Shown.{SameKeeper};
ghost use Rattle.book.specs.Behind.{Turns};
ghost use Rattle.book.specs.Keeping.{HasRoom, IsReady};
ghost use Rattle.book.specs.Learning.{Learns};
ghost use Rattle.book.specs.Makings.{IsQuietRefusal};
ghost use Rattle.book.specs.Outcomes.{PollIsMade, PollHasRoom, IsAnswered};
ghost use Rattle.book.specs.Quiet.{page};
ghost use Rattle.book.specs.Scenes.{scene};
ghost use Rattle.book.specs.WorkableOver.{IsWorkable, IsWorkableOver};

use crate::answers::{poll_answered, poll_told};
use crate::called::{called_row, is_sent_away};
use crate::history::History;
use crate::looking::look_for;
use crate::making::{make_answered, make_room};
use crate::requests::poll;
use crate::turning::Turn;
use core_state::{Actor, Entry, Made, State, What};
use heat_plan::{Answered, EngineNo, Refusal, Request, Token};
use provider::{Poll, Provider};
use record_keeper::Keeper;
use std::alloc::Global;
use step_parts::token_of;

/// The row's token, and the step for each answer whose size is known.
#[derive(Debug, Drop)]
pub(crate) struct PollOutcomes {
    pub token: Token,
    pub not_yet: Made,
    pub failed: Made,
}

/// Polls the resource of an engine's job, or asks whether it is gone where it was sent away, and
/// makes the step of the answer.
pub(crate) fn poll_for<K: Keeper, P: Provider>(
    alloc: Global,
    state: &mut State,
    entries: &mut History,
    keeper: &mut K,
    cloud: &mut P,
    e: EngineNo,
) -> Turn
    requires calls { Calls state.old.state e Polling }
    requires workable { IsWorkableOver state.old.state entries.old.items (P.cloud cloud.old) }
    requires ready { IsReady (K.shown keeper.old) state.old.state }
    ensures { Turns e
        (scene state.old.state entries.old.items (P.cloud cloud.old))
        (scene state.new.state entries.new.items (P.cloud cloud.new))
        (K.shown keeper.old) (K.shown keeper.new) (K.faults keeper.old) (K.faults keeper.new) result }
{
    if is_sent_away(called_row(state, e)) {
        return look_for(alloc, state, entries, keeper, cloud, e);
    }
    match prepare(alloc, state, entries, keeper, e) {
        Ok(outcomes) => poll_prepared(alloc, state, entries, keeper, cloud, e, outcomes),
        Err(Refusal::Worn) => Turn::Worn,
        Err(_) => Turn::Memory,
    }
}

// The steps of the answers whose size is known, and room for each of them.
fn prepare<K: Keeper>(
    alloc: Global,
    state: &mut State,
    entries: &mut History,
    keeper: &mut K,
    e: EngineNo,
) -> Result<PollOutcomes, Refusal>
    requires calls { Calls state.old.state e Polling }
    requires workable { IsWorkable state.old.state }
    ensures state { state.new.state ≡ state.old.state }
    ensures entries { entries.new.items ≡ entries.old.items }
    ensures shown { SameKeeper (K.shown keeper.old) (K.shown keeper.new) }
    ensures faults { K.faults keeper.new ≡ K.faults keeper.old }
    ensures made { IfOk result (PollIsMade state.old.state e) }
    ensures room { IfOk result
        (PollHasRoom (K.has_room keeper.new) state.new.spare entries.new.spare) }
    ensures cause { IfErr result (IsQuietRefusal state.old.state e) }
{
    let outcomes = outcomes_of(alloc, state, e)?;
    make_room(state, entries, keeper, &outcomes.not_yet)?;
    make_room(state, entries, keeper, &outcomes.failed)?;
    Ok(outcomes)
}

// The token, and the step of each answer whose size is known.
fn outcomes_of(alloc: Global, state: &State, e: EngineNo) -> Result<PollOutcomes, Refusal>
    requires calls { Calls state.now.state e Polling }
    ensures made { IfOk result (PollIsMade state.now.state e) }
    ensures cause { IfErr result (IsQuietRefusal state.now.state e) }
{
    Ok(PollOutcomes {
        token: token_of(called_row(state, e))?,
        not_yet: poll_answered(alloc, state, e, &Answered::NotYet)?,
        failed: poll_answered(alloc, state, e, &Answered::Failed)?,
    })
}

// Polls, and makes the step of the answer.
fn poll_prepared<K: Keeper, P: Provider>(
    alloc: Global,
    state: &mut State,
    entries: &mut History,
    keeper: &mut K,
    cloud: &mut P,
    e: EngineNo,
    outcomes: PollOutcomes,
) -> Turn
    requires calls { Calls state.old.state e Polling }
    requires stays { (k : Calls state.old.state e Polling) → k.row.act ≢ Delete }
    requires workable { IsWorkableOver state.old.state entries.old.items (P.cloud cloud.old) }
    requires ready { IsReady (K.shown keeper.old) state.old.state }
    requires made { PollIsMade state.old.state e outcomes }
    requires room { PollHasRoom (K.has_room keeper.old) state.old.spare entries.old.spare outcomes }
    ensures { Turns e
        (scene state.old.state entries.old.items (P.cloud cloud.old))
        (scene state.new.state entries.new.items (P.cloud cloud.new))
        (K.shown keeper.old) (K.shown keeper.new) (K.faults keeper.old) (K.faults keeper.new) result }
{
    match poll(cloud, &outcomes.token) {
        Poll::NotYet => make_answered(state, entries, keeper, outcomes.not_yet),
        Poll::Failed => make_answered(state, entries, keeper, outcomes.failed),
        Poll::Ready(facts) => {
            let answer = Answered::Ready(facts);
            learn(
                alloc,
                state,
                entries,
                keeper,
                e,
                outcomes.token,
                answer,
                outcomes.failed,
            )
        }
        Poll::Broken(code) => {
            let answer = Answered::Broken(code);
            learn(
                alloc,
                state,
                entries,
                keeper,
                e,
                outcomes.token,
                answer,
                outcomes.failed,
            )
        }
        Poll::Memory => Turn::Memory,
    }
}

// Stores what a poll told; where there is no memory for it, or the keeper fails, tells the call alone.
fn learn<K: Keeper>(
    alloc: Global,
    state: &mut State,
    entries: &mut History,
    keeper: &mut K,
    e: EngineNo,
    token: Token,
    answer: Answered,
    failed: Made,
) -> Turn
    requires calls { Calls state.old.state e Polling }
    requires stays { (k : Calls state.old.state e Polling) → k.row.act ≢ Delete }
    requires token { (k : Calls state.old.state e Polling) → token ≡ token_of k.row }
    requires failed { IsAnswered state.old.state e answers.Failed failed }
    requires size { IsOfUnknownSize answer }
    requires page { 0 < entries.old.spare }
    requires workable { IsWorkable state.old.state }
    requires ready { IsReady (K.shown keeper.old) state.old.state }
    ensures { Learns e answer
        (page state.old.state entries.old.items) (page state.new.state entries.new.items)
        (K.shown keeper.old) (K.shown keeper.new) (K.faults keeper.old) (K.faults keeper.new) result }
{
    match learned(alloc, state, entries, keeper, e, &answer, failed) {
        Ok(made) => make_answered(state, entries, keeper, made),
        Err(_) => {
            let what = What::Call {
                token,
                request: Request::Poll,
                answer,
            };
            entries.push(Entry {
                by: Actor::Engine(e),
                what,
            });
            Turn::Memory
        }
    }
}

// The step of what a poll told, with room for it.
fn learned<K: Keeper>(
    alloc: Global,
    state: &mut State,
    entries: &mut History,
    keeper: &mut K,
    e: EngineNo,
    answer: &Answered,
    failed: Made,
) -> Result<Made, Refusal>
    requires calls { Calls state.old.state e Polling }
    requires stays { (k : Calls state.old.state e Polling) → k.row.act ≢ Delete }
    requires size { IsOfUnknownSize answer.now }
    requires failed { IsAnswered state.old.state e answers.Failed failed }
    requires workable { IsWorkable state.old.state }
    ensures state { state.new.state ≡ state.old.state }
    ensures entries { entries.new.items ≡ entries.old.items }
    ensures page { entries.old.spare ≤ entries.new.spare }
    ensures shown { SameKeeper (K.shown keeper.old) (K.shown keeper.new) }
    ensures faults { K.faults keeper.new ≡ K.faults keeper.old }
    ensures made { IfOk result (IsAnswered state.old.state e answer.now) }
    ensures room { IfOk result
        (HasRoom (K.has_room keeper.new) state.new.spare entries.new.spare) }
{
    let made = poll_told(alloc, state, e, answer, failed)?;
    make_room(state, entries, keeper, &made)?;
    Ok(made)
}
