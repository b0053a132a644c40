//! The commit of a step that was looked at before. Where another step is next by now, it meets the
//! fence: what was prepared is dropped, and nothing is changed.
ghost use Rattle.std.specs.Prelude.{◌<◌, ◌≡◌};
ghost use Rattle.provider.specs.Cloud.{Cloud};
ghost use Rattle.check_steps.specs.Looks.{HasNext, IsWork};
ghost use Rattle.check_steps.specs.Prepares.{IsPrepared};
ghost use Rattle.book.specs.Behind.{CommitsTo, Turns};
ghost use Rattle.book.specs.Commits.{MayBegin};
ghost use Rattle.book.specs.Keeping.{IsReady};
ghost use Rattle.book.specs.Scenes.{scene};
ghost use Rattle.book.specs.WorkableOver.{IsWorkable, IsWorkableOver};

use crate::history::History;
use crate::turning::{Turn, make_quietly, turn_of};
use check_steps::{Prepared, Work, is_overtaken};
use core_state::State;
use heat_plan::EngineNo;
use provider::Provider;
use record_keeper::Keeper;
use std::alloc::Global;
use step_reads::{Task, next_of};
use type_catalog::Registry;

/// A step that was looked at, and what was prepared for it.
#[derive(Drop)]
pub(crate) struct Proposal {
    pub work: Work,
    pub prepared: Prepared,
}

/// The step of an engine whose number was drawn, where it is still the one that was looked at.
pub(crate) fn commit_of<K: Keeper, P: Provider>(
    alloc: Global,
    state: &mut State,
    entries: &mut History,
    keeper: &mut K,
    cloud: &mut P,
    e: EngineNo,
    proposal: Proposal,
) -> Turn
    requires drawn { e < state.old.state.next.engine }
    requires workable { IsWorkableOver state.old.state entries.old.items (P.cloud cloud.old) }
    requires ready { IsReady (K.shown keeper.old) state.old.state }
    requires prepared { IsPrepared proposal.work proposal.prepared }
    ensures committed { CommitsTo e proposal.work
        (scene state.old.state entries.old.items (P.cloud cloud.old))
        (scene state.new.state entries.new.items (P.cloud cloud.new))
        (K.shown keeper.old) (K.shown keeper.new) (K.faults keeper.old) (K.faults keeper.new) result }
    ensures unprepared { proposal.prepared ≡ Prepared.Memory → HasNext state.old.state e
        → IsWork state.old.state e proposal.work → result ≡ Turn.Memory }
{
    let Proposal { work, prepared } = proposal;
    if is_overtaken(state, e, &work) {
        return Turn::Stepped;
    }
    match work {
        Work::Plain => turn_plainly(alloc, state, entries, keeper, cloud, e),
        Work::Begin(_) => begin_given(alloc, state, entries, keeper, e, &prepared),
    }
}

// A turn in which nothing is begun at an update node, so that no judge is asked.
fn turn_plainly<K: Keeper, P: Provider>(
    alloc: Global,
    state: &mut State,
    entries: &mut History,
    keeper: &mut K,
    cloud: &mut P,
    e: EngineNo,
) -> Turn
    requires drawn { e < state.old.state.next.engine }
    requires workable { IsWorkableOver state.old.state entries.old.items (P.cloud cloud.old) }
    requires ready { IsReady (K.shown keeper.old) state.old.state }
    ensures { Turns e
        (scene state.old.state entries.old.items (P.cloud cloud.old))
        (scene state.new.state entries.new.items (P.cloud cloud.new))
        (K.shown keeper.old) (K.shown keeper.new) (K.faults keeper.old) (K.faults keeper.new) result }
{
    let none = Registry::empty(alloc);
    turn_of(alloc, &none, state, entries, keeper, cloud, e)
}

// The begin with what was prepared for it; an engine without a next step answers as at a turn.
fn begin_given<K: Keeper>(
    alloc: Global,
    state: &mut State,
    entries: &mut History,
    keeper: &mut K,
    e: EngineNo,
    prepared: &Prepared,
) -> Turn
    requires drawn { e < state.old.state.next.engine }
    requires begins { MayBegin state.old.state e prepared.now }
    requires workable { IsWorkable state.old.state }
    requires ready { IsReady (K.shown keeper.old) state.old.state }
    ensures turned { (c : Cloud) → Turns e
        (scene state.old.state entries.old.items c)
        (scene state.new.state entries.new.items c)
        (K.shown keeper.old) (K.shown keeper.new) (K.faults keeper.old) (K.faults keeper.new) result }
    ensures unprepared { prepared.now ≡ Prepared.Memory → HasNext state.old.state e → result ≡ Turn.Memory }
{
    match next_of(state, e) {
        Task::Lost => Turn::Lost,
        Task::Idle => Turn::Idle,
        Task::Take(_) => unreachable!(),
        Task::TakeOver(_) => unreachable!(),
        Task::Work(job) => match prepared {
            Prepared::Memory => Turn::Memory,
            _ => {
                let made = check_steps::begin(alloc, state, e, job, prepared);
                make_quietly(state, entries, keeper, made)
            }
        },
    }
}
