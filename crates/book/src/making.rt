//! The one place where a state and a history change: room first; then the keeper keeps the changes; then
//! they are made, and the entries told.
ghost use Rattle.std.specs.Prelude.{◌≡◌, ◌≢◌, ◌<◌, ◌≤◌, ◌++◌, [], Err, List, IfOk, OnOk, OnErr, length, take};
ghost use Rattle.heat_value.specs.Counts.{Rose};
ghost use Rattle.core_state.specs.Applies.{AllApply};
ghost use Rattle.core_state.specs.Changes.{applied};
ghost use Rattle.core_state.specs.State.{StateData};
ghost use Rattle.core_state.specs.declared.change.Change.{Change as change_type};
ghost use Rattle.step_relation.specs.Images.{AreKeepable};
ghost use Rattle.record_keeper.specs.Shown.{SameKeeper};
ghost use Rattle.book.specs.Keeping.{HasRoom, IsReady, IsStorable, Keeps};
ghost use Rattle.book.specs.Makings.{Answers, MakesAs};
ghost use Rattle.book.specs.Quiet.{page};

use crate::history::History;
use crate::turning::Turn;
use core_state::{Batch, Entry, Made, Ready, State};
use heat_plan::Refusal;
use record_keeper::{KeepFailed, Keeper};
use std::alloc::AllocError;

/// Makes room for a step's changes and entries, here and with the keeper.
pub(crate) fn make_room<K: Keeper>(
    state: &mut State,
    entries: &mut History,
    keeper: &mut K,
    made: &Made,
) -> Result<(), AllocError>
    requires { AreKeepable made.now.changes }
    ensures state { state.new.state ≡ state.old.state }
    ensures entries { entries.new.items ≡ entries.old.items }
    ensures shown { SameKeeper (K.shown keeper.old) (K.shown keeper.new) }
    ensures faults { K.faults keeper.new ≡ K.faults keeper.old }
    ensures room { OnOk result
        (HasRoom (K.has_room keeper.new) state.new.spare entries.new.spare made.now) }
    ensures keeps { state.old.spare ≤ state.new.spare }
    ensures keeps_pages { entries.old.spare ≤ entries.new.spare }
    ensures keeps_records { (cs : List change_type) → K.has_room keeper.old cs → K.has_room keeper.new cs }
{
    state.reserve(made.changes.len())?;
    entries.reserve(made.entries.len())?;
    keeper.reserve(made.changes.as_slice())
}

/// Has the keeper keep a step's changes, of which there may be none. It takes no memory.
pub(crate) fn keep<K: Keeper>(keeper: &mut K, changes: &[Ready]) -> Result<(), KeepFailed>
    requires ready { (s : StateData) × IsReady (K.shown keeper.old) s }
    requires keepable { AreKeepable changes.now }
    requires applies { (s : StateData) → (K.shown keeper.old).stands s → AllApply changes.now s }
    requires room { K.has_room keeper.old changes.now }
    ensures keeps { (s : StateData) → IsReady (K.shown keeper.old) s
        → Keeps (K.shown keeper.old) (K.shown keeper.new) (K.faults keeper.old) (K.faults keeper.new)
        s (applied changes.now s) }
    ensures ready { OnOk result ((s : StateData) → IsReady (K.shown keeper.old) s
        → IsReady (K.shown keeper.new) (applied changes.now s)) }
    ensures fault { OnErr result (Rose (K.faults keeper.old) (K.faults keeper.new)) }
    ensures tried { OnErr result (changes.now ≢ []) }
{
    if changes.is_empty() {
        return Ok(());
    }
    keeper.append(changes)
}

/// Makes a step's changes and tells its entries, within the room.
pub(crate) fn write(state: &mut State, entries: &mut History, made: Made)
    requires room { length made.changes ≤ state.old.spare }
    requires pages { length made.entries ≤ entries.old.spare }
    ensures state { state.new.state ≡ applied made.changes state.old.state }
    ensures entries { entries.new.items ≡ entries.old.items ++ made.entries }
{
    state.apply_all(made.changes);
    for entry in made.entries.into_vec() {
        entries.push(entry);
    }
}

/// Makes a step that was thought out, or hands its refusal on; then all stays as it was.
pub(crate) fn make_step<K: Keeper>(
    state: &mut State,
    entries: &mut History,
    keeper: &mut K,
    made: Result<Made, Refusal>,
) -> Result<(), Refusal>
    requires ready { IsReady (K.shown keeper.old) state.old.state }
    requires storable { IfOk made (λ m. IsStorable state.old.state m.changes) }
    requires honest { made ≢ Err Refusal.DiskFault }
    ensures { MakesAs made (page state.old.state entries.old.items)
        (page state.new.state entries.new.items) (K.shown keeper.old) (K.shown keeper.new)
        (K.faults keeper.old) (K.faults keeper.new) result }
{
    let made = match made {
        Ok(made) => made,
        Err(refusal) => return Err(refusal),
    };
    if make_room(state, entries, keeper, &made).is_err() {
        return Err(Refusal::Memory);
    }
    if keep(keeper, made.changes.as_slice()).is_err() {
        return Err(Refusal::DiskFault);
    }
    write(state, entries, made);
    Ok(())
}

/// Makes the step of an answer, within the room. Where the keeper fails, the call alone is told.
pub(crate) fn make_answered<K: Keeper>(
    state: &mut State,
    entries: &mut History,
    keeper: &mut K,
    made: Made,
) -> Turn
    requires ready { IsReady (K.shown keeper.old) state.old.state }
    requires storable { IsStorable state.old.state made.changes }
    requires room { HasRoom (K.has_room keeper.old) state.old.spare entries.old.spare made }
    requires tells { made.entries ≢ [] }
    ensures { Answers made (page state.old.state entries.old.items)
        (page state.new.state entries.new.items) (K.shown keeper.old) (K.shown keeper.new)
        (K.faults keeper.old) (K.faults keeper.new) result }
{
    if keep(keeper, made.changes.as_slice()).is_err() {
        tell_first(entries, made.entries);
        return Turn::DiskFault;
    }
    write(state, entries, made);
    Turn::Stepped
}

// Tells the first of these entries, within the room.
fn tell_first(entries: &mut History, told: Batch<Entry>)
    requires room { 0 < entries.old.spare }
    requires some { told ≢ [] }
    ensures { entries.new.items ≡ entries.old.items ++ take 1 told }
{
    let mut all = told.into_vec();
    entries.push(all.remove(0));
}
