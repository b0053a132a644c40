//! An engine is enlisted: it gets the next number, and is live from then on.
ghost use Rattle.std.specs.Prelude.{◌≡◌, ◌≤◌, ◌+◌, ◌⊎◌, ◌^◌, ◌∷◌, [], IfOk, IfErr};
ghost use Rattle.heat_plan.specs.declared.refusal.Refusal.TheVariants.{Memory};
ghost use Rattle.core_state.specs.declared.change.Change.TheVariants as change_to;
ghost use Rattle.core_state.specs.declared.entry.Actor.TheVariants.{Main};
ghost use Rattle.core_state.specs.declared.entry.EngineChange.TheVariants as engine;
ghost use Rattle.core_state.specs.declared.entry.What.TheVariants as what;
ghost use Rattle.step_relation.specs.Refusals.{RefusesEnlist};
ghost use Rattle.step_relation.specs.Steps.{Step, past_engines};
ghost use Rattle.step_relation.specs.Writes.{entry_of};
ghost use Rattle.takeover_steps.specs.Engines.{Enlists};

use crate::stopping::main_entry;
use core_state::{Batch, Change, EngineChange, Made, Numbers, State};
use heat_plan::{EngineNo, Refusal};
use std::alloc::{AllocError, Global};

/// How many engines may be live.
pub const ENGINE_LIMIT: usize = 64;

/// The enlisting of an engine; refuses `TooManyEngines` where so many are live as may be, else
/// `Worn` where its number would be 2^62.
pub fn enlist(alloc: Global, s: &State) -> Result<Made, Refusal>
    ensures step { IfOk result (λ m. Step s.now.state m.changes m.entries) }
    ensures made { IfOk result (λ m. Enlists s.now.state m.changes m.entries) }
    ensures cause { IfErr result (λ r. (r ≡ Memory) ⊎ RefusesEnlist s.now.state r) }
{
    if s.live().len() >= ENGINE_LIMIT {
        return Err(Refusal::TooManyEngines);
    }
    match EngineNo::new(s.next().engine.get()) {
        Some(e) => Ok(started(alloc, s.next(), e)?),
        None => Err(Refusal::Worn),
    }
}

// The next engine is live.
fn started(alloc: Global, next: &Numbers, e: EngineNo) -> Result<Made, AllocError>
    requires { next.now.engine ≡ e }
    ensures changes { IfOk result (λ m.
        m.changes ≡ change_to.Numbers (past_engines next.now 1) ∷ change_to.Enlist e ∷ []) }
    ensures entries { IfOk result (λ m.
        m.entries ≡ entry_of Main (what.Engine (engine.Start e)) ∷ []) }
{
    let mut changes = Batch::new(alloc);
    changes.push(Change::Numbers(past_engines(next, 1)))?;
    changes.push(Change::Enlist(e))?;
    let entries = main_entry(alloc, EngineChange::Start(e))?;
    Made::new(alloc, changes, entries)
}

/// The next numbers behind so many engines.
pub fn past_engines(next: &Numbers, count: u8) -> Numbers
    requires { next.now.engine + count ≤ 2 ^ 62 }
    ensures { result ≡ past_engines next.now count }
{
    let mut past = *next;
    past.engine = next.engine.after(count as u64);
    past
}
