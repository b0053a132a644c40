//! Engines that stop and are enlisted.
ghost use Rattle.std.specs.Prelude.{◌≡◌};
ghost use Rattle.step_relation.specs.Refusals.{RefusesEnlist, RefusesStop};
ghost use Rattle.takeover_steps.specs.Engines.{Enlists, Stops};
ghost use Rattle.book.specs.Keeping.{IsReady};
ghost use Rattle.book.specs.Makings.{DoesSo};
ghost use Rattle.book.specs.Quiet.{page};
ghost use Rattle.book.specs.WorkableOver.{IsWorkable};

use crate::history::History;
use crate::making::make_step;
use core_state::State;
use heat_plan::{EngineNo, Refusal};
use record_keeper::Keeper;
use std::alloc::Global;

/// Stops an engine; its job stays, for others to take over.
pub(crate) fn make_stop<K: Keeper>(
    alloc: Global,
    state: &mut State,
    entries: &mut History,
    keeper: &mut K,
    e: EngineNo,
) -> Result<(), Refusal>
    requires workable { IsWorkable state.old.state }
    requires ready { IsReady (K.shown keeper.old) state.old.state }
    ensures { DoesSo (Stops state.old.state e) (RefusesStop state.old.state e) tt
        (page state.old.state entries.old.items) (page state.new.state entries.new.items)
        (K.shown keeper.old) (K.shown keeper.new) (K.faults keeper.old) (K.faults keeper.new) result }
{
    let made = takeover_steps::stop(alloc, state, e);
    make_step(state, entries, keeper, made)
}

/// Enlists an engine. Gives its number.
pub(crate) fn make_enlisting<K: Keeper>(
    alloc: Global,
    state: &mut State,
    entries: &mut History,
    keeper: &mut K,
) -> Result<EngineNo, Refusal>
    requires workable { IsWorkable state.old.state }
    requires ready { IsReady (K.shown keeper.old) state.old.state }
    ensures { DoesSo (Enlists state.old.state) (RefusesEnlist state.old.state)
        state.old.state.next.engine
        (page state.old.state entries.old.items) (page state.new.state entries.new.items)
        (K.shown keeper.old) (K.shown keeper.new) (K.faults keeper.old) (K.faults keeper.new) result }
{
    let drawn = EngineNo::new(state.next().engine.get());
    let made = takeover_steps::enlist(alloc, state);
    match make_step(state, entries, keeper, made) {
        Ok(()) => match drawn {
            Some(engine) => Ok(engine),
            None => unreachable!(),
        },
        Err(refusal) => Err(refusal),
    }
}
