//! The state that payloads give.
ghost use Rattle.std.specs.Prelude.{◌≡◌, ◌++◌, ◌∷◌, [], false, true, IfOk, IfSome, None, Ok};
ghost use Rattle.core_state.specs.Applies.{AllApply};
ghost use Rattle.core_state.specs.Changes.{applied};
ghost use Rattle.core_state.specs.State.{StateData};
ghost use Rattle.state_journal.specs.Payloads.{Follows, Give};

use core_state::{ApplyFault, Batch, Change, State};
use row_codec::read;
use row_journal::Payload;
use state_images::make;
use std::alloc::{AllocError, Global};

/// The state that they give; none exactly where they give none.
pub(crate) fn state_of(alloc: Global, payloads: &[Payload]) -> Result<Option<State>, AllocError>
    ensures some { IfOk result (λ o. IfSome o (λ s. Give payloads.now s.state)) }
    ensures none { result ≡ Ok None → (s : StateData) → ¬ Give payloads.now s }
{
    let mut state = State::new(alloc);
    for payload in payloads {
        if !follow(alloc, &mut state, payload)? {
            return Ok(None);
        }
    }
    Ok(Some(state))
}

/// Whether one payload more leads on from this state.
pub(crate) fn leads_on(alloc: Global, state: &State, payload: &Payload) -> Result<bool, AllocError>
    ensures yes { result ≡ Ok true → (t : StateData) × Follows payload.now state.now.state t }
    ensures no { result ≡ Ok false → (t : StateData) → ¬ Follows payload.now state.now.state t }
{
    let mut copy = state.copy()?;
    follow(alloc, &mut copy, payload)
}

// Makes the changes of a payload; whether they are changes, and all apply.
fn follow(alloc: Global, state: &mut State, payload: &Payload) -> Result<bool, AllocError>
    ensures yes { result ≡ Ok true → Follows payload.now state.old.state state.new.state }
    ensures no { result ≡ Ok false → (t : StateData) → ¬ Follows payload.now state.old.state t }
{
    match read(alloc, payload.as_slice())? {
        Some(changes) => apply_all(alloc, state, batch_of(alloc, changes)?),
        None => Ok(false),
    }
}

// The changes in order.
fn batch_of(alloc: Global, changes: Vec<Change>) -> Result<Batch<Change>, AllocError>
    ensures { IfOk result (λ batch. batch ≡ changes.items) }
{
    let mut batch = Batch::new(alloc);
    for change in changes {
        batch.push(change)?;
    }
    Ok(batch)
}

// Makes them; whether all apply.
fn apply_all(alloc: Global, state: &mut State, changes: Batch<Change>) -> Result<bool, AllocError>
    ensures yes { result ≡ Ok true → AllApply changes state.old.state }
    ensures gives { result ≡ Ok true → state.new.state ≡ applied changes state.old.state }
    ensures no { result ≡ Ok false → ¬ AllApply changes state.old.state }
{
    match make(alloc, state, changes) {
        Ok(()) => Ok(true),
        Err(ApplyFault::Bad) => Ok(false),
        Err(ApplyFault::Memory) => Err(AllocError),
    }
}
