//! All live engines stop, and so many new ones are enlisted.
ghost use Rattle.std.specs.Prelude.{◌≡◌, ◌≤◌, ◌+◌, ◌++◌, ◌⊎◌, ◌^◌, ◌∷◌, [], IfOk, IfErr, OnOk, map};
ghost use Rattle.heat_plan.specs.declared.refusal.Refusal.TheVariants.{Memory};
ghost use Rattle.core_state.specs.declared.change.Change.TheVariants as change_to;
ghost use Rattle.step_relation.specs.Steps.{Step, engine_limit, engines_from, restart_changes};
ghost use Rattle.takeover_steps.specs.Engines.{RefusesRestart, Restarts};

use crate::enlisting::past_engines;
use crate::stopping::main_entry;
use core_state::{Batch, Change, EngineChange, Made, Next, State};
use heat_plan::{EngineNo, Refusal, WORN};
use std::alloc::{AllocError, Global};

/// The restart with so many engines; refuses `Worn` where a number of theirs would be 2^62.
pub fn restart(alloc: Global, s: &State, count: u8) -> Result<Made, Refusal>
    requires some { 1 ≤ count }
    requires few { count ≤ engine_limit }
    ensures step { IfOk result (λ m. Step s.now.state m.changes m.entries) }
    ensures made { IfOk result (λ m. Restarts s.now.state count m.changes m.entries) }
    ensures cause { IfErr result (λ r. (r ≡ Memory) ⊎ RefusesRestart s.now.state count r) }
{
    let next = s.next().engine;
    if count as u64 > WORN - next.get() {
        return Err(Refusal::Worn);
    }
    let changes = changes_of(alloc, s, count)?;
    let first = EngineNo::new(next.get()).unwrap();
    let entries = main_entry(alloc, EngineChange::Restart(first, count))?;
    Ok(Made::new(alloc, changes, entries)?)
}

// The numbers, the stops and the enlistings.
fn changes_of(alloc: Global, s: &State, count: u8) -> Result<Batch<Change>, AllocError>
    requires { s.now.state.next.engine + count ≤ 2 ^ 62 }
    ensures { IfOk result (λ changes. changes ≡ restart_changes s.now.state count) }
{
    let mut changes = Batch::new(alloc);
    changes.push(Change::Numbers(past_engines(s.next(), count)))?;
    stop_all(&mut changes, s.live())?;
    enlist_all(&mut changes, s.next().engine, count)?;
    Ok(changes)
}

// The stop of each of these.
fn stop_all(changes: &mut Batch<Change>, live: &[EngineNo]) -> Result<(), AllocError>
    ensures { OnOk result (changes.new ≡ changes.old ++ map change_to.Stop live.now) }
{
    for e in live {
        changes.push(Change::Stop(*e))?;
    }
    Ok(())
}

// The enlisting of so many, from one on.
fn enlist_all(changes: &mut Batch<Change>, first: Next, count: u8) -> Result<(), AllocError>
    requires { first + count ≤ 2 ^ 62 }
    ensures { OnOk result
        (changes.new ≡ changes.old ++ map change_to.Enlist (engines_from first count)) }
{
    let first = first.get();
    for i in 0..count {
        changes.push(Change::Enlist(EngineNo::new(first + i as u64).unwrap()))?;
    }
    Ok(())
}
