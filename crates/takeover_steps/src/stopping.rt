//! An engine is stopped: its job and the lock of its row stay, for others to take over.
ghost use Rattle.std.specs.Prelude.{◌≡◌, ◌⊎◌, ◌∷◌, [], IfOk, IfErr};
ghost use Rattle.heat_plan.specs.declared.refusal.Refusal.TheVariants.{Memory};
ghost use Rattle.core_state.specs.declared.change.Change.TheVariants as change_to;
ghost use Rattle.core_state.specs.declared.entry.Actor.TheVariants.{Main};
ghost use Rattle.core_state.specs.declared.entry.What.TheVariants as what;
ghost use Rattle.step_relation.specs.Refusals.{RefusesStop};
ghost use Rattle.step_relation.specs.Steps.{Step};
ghost use Rattle.step_relation.specs.Writes.{entry_of};
ghost use Rattle.takeover_steps.specs.Engines.{Stops};

use core_state::{Actor, Batch, Change, EngineChange, Entry, Made, State, What};
use heat_plan::{EngineNo, Refusal};
use std::alloc::{AllocError, Global};
use step_reads::is_live;

/// The stop of an engine; refuses `NoEngine` where it isn't live.
pub fn stop(alloc: Global, s: &State, e: EngineNo) -> Result<Made, Refusal>
    ensures step { IfOk result (λ m. Step s.now.state m.changes m.entries) }
    ensures made { IfOk result (λ m. Stops s.now.state e m.changes m.entries) }
    ensures cause { IfErr result (λ r. (r ≡ Memory) ⊎ RefusesStop s.now.state e r) }
{
    if !is_live(s, e) {
        return Err(Refusal::NoEngine);
    }
    let mut changes = Batch::new(alloc);
    changes.push(Change::Stop(e))?;
    let entries = main_entry(alloc, EngineChange::Stop(e))?;
    Ok(Made::new(alloc, changes, entries)?)
}

/// What is told of a change of the engines.
pub fn main_entry(alloc: Global, change: EngineChange) -> Result<Batch<Entry>, AllocError>
    ensures { IfOk result (λ entries. entries ≡ entry_of Main (what.Engine change) ∷ []) }
{
    let mut entries = Batch::new(alloc);
    entries.push(Entry {
        by: Actor::Main,
        what: What::Engine { change },
    })?;
    Ok(entries)
}
