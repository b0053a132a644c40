//! A turn of an engine: the next step of its job, the taking of the lowest letter, or the
//! take-over of a stopped engine's job.
ghost use Rattle.std.specs.Prelude.{◌≡◌, ◌≢◌, ◌<◌, Err, IfOk, IfErr};
ghost use Rattle.book.specs.Behind.{Turns};
ghost use Rattle.book.specs.Keeping.{IsReady, IsStorable};
ghost use Rattle.book.specs.Makings.{MakesQuietly, turn_for};
ghost use Rattle.book.specs.Quiet.{page};
ghost use Rattle.book.specs.Scenes.{scene};
ghost use Rattle.book.specs.WorkableOver.{IsWorkableOver};

use crate::ask::ask_for;
use crate::beginning::begin_job;
use crate::history::History;
use crate::making::make_step;
use crate::poll::poll_for;
use check_steps::{finish, take};
use core_state::{Made, Stage, State};
use heat_plan::{EngineNo, Refusal};
use provider::Provider;
use record_keeper::Keeper;
use std::alloc::Global;
use step_reads::{Task, next_of};
use takeover_steps::takeover;
use type_catalog::Registry;

/// What a turn came to. `Idle`: nothing was there to do. `Lost`: the engine isn't live. `Worn`: a
/// number or a key would have come to 2^62. `DiskFault`: the keeper failed to keep the step, of which
/// at most the call is told. `Memory`: nothing has changed, but that a poll's answer may be told alone.
#[derive(Clone, Copy, Debug, PartialEq, Eq)]
pub enum Turn {
    Stepped,
    Idle,
    Lost,
    Worn,
    DiskFault,
    Memory,
}

/// One turn of an engine whose number was drawn.
pub(crate) fn turn_of<K: Keeper, P: Provider>(
    alloc: Global,
    registry: &Registry,
    state: &mut State,
    entries: &mut History,
    keeper: &mut K,
    cloud: &mut P,
    e: EngineNo,
) -> Turn
    requires drawn { e < state.old.state.next.engine }
    requires workable { IsWorkableOver state.old.state entries.old.items (P.cloud cloud.old) }
    requires ready { IsReady (K.shown keeper.old) state.old.state }
    ensures { Turns e
        (scene state.old.state entries.old.items (P.cloud cloud.old))
        (scene state.new.state entries.new.items (P.cloud cloud.new))
        (K.shown keeper.old) (K.shown keeper.new) (K.faults keeper.old) (K.faults keeper.new) result }
{
    match next_of(state, e) {
        Task::Lost => Turn::Lost,
        Task::Idle => Turn::Idle,
        Task::Take(letter) => {
            let made = take(alloc, state, e, letter);
            make_quietly(state, entries, keeper, made)
        }
        Task::TakeOver(job) => {
            let made = takeover(alloc, state, e, job);
            make_quietly(state, entries, keeper, made)
        }
        Task::Work(job) => match job.stage {
            Stage::Taken => {
                let made = begin_job(alloc, registry, state, e, job);
                make_quietly(state, entries, keeper, made)
            }
            Stage::Asking => ask_for(alloc, state, entries, keeper, cloud, e),
            Stage::Polling => poll_for(alloc, state, entries, keeper, cloud, e),
            Stage::Ending => {
                let made = finish(alloc, state, e, job);
                make_quietly(state, entries, keeper, made)
            }
        },
    }
}

/// Makes a step that asks nobody.
pub(crate) fn make_quietly<K: Keeper>(
    state: &mut State,
    entries: &mut History,
    keeper: &mut K,
    made: Result<Made, Refusal>,
) -> Turn
    requires ready { IsReady (K.shown keeper.old) state.old.state }
    requires storable { IfOk made (λ m. IsStorable state.old.state m.changes) }
    requires honest { made ≢ Err Refusal.DiskFault }
    ensures { MakesQuietly made
        (page state.old.state entries.old.items) (page state.new.state entries.new.items)
        (K.shown keeper.old) (K.shown keeper.new) (K.faults keeper.old) (K.faults keeper.new) result }
{
    turn_for(make_step(state, entries, keeper, made))
}

// The turn of a step that was to be made.
fn turn_for(done: Result<(), Refusal>) -> Turn
    ensures { result ≡ turn_for done }
{
    match done {
        Ok(()) => Turn::Stepped,
        Err(Refusal::Worn) => Turn::Worn,
        Err(Refusal::DiskFault) => Turn::DiskFault,
        Err(
            Refusal::StackExists
            | Refusal::NoStack
            | Refusal::Deleting
            | Refusal::TooManyStacks
            | Refusal::TooManyRows
            | Refusal::NoEngine
            | Refusal::TooManyEngines
            | Refusal::NotRunning
            | Refusal::Memory,
        ) => Turn::Memory,
    }
}
