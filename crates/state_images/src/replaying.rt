//! States from changes: lists of changes that are made of nothing, one list after another.
ghost use Rattle.std.specs.Prelude.{◌≡◌, Err, IfOk, IfSome, OnOk};
ghost use Rattle.core_state.specs.Applies.{AllApply};
ghost use Rattle.core_state.specs.Changes.{applied};
ghost use Rattle.core_state.specs.declared.apply_fault.ApplyFault.TheVariants.{Bad};
ghost use Rattle.step_relation.specs.Images.{IsMade};
ghost use Rattle.state_images.specs.Replays.{IsReplayed, joined};

use core_state::{ApplyFault, Batch, Change, State};
use std::alloc::{AllocError, Global};

/// The state that the lists make of nothing, or none where a change among them doesn't apply.
#[tactic(auto, using(crate::proofs::Making::replay_made))]
pub fn replay(alloc: Global, lists: Batch<Batch<Change>>) -> Result<Option<State>, AllocError>
    ensures exact { IfOk result (λ o. IsReplayed lists o) }
    ensures made { IfOk result (λ o. IfSome o (λ s. IsMade s.state)) }
{
    let mut state = State::new(alloc);
    match make_all(alloc, &mut state, lists) {
        Ok(()) => Ok(Some(state)),
        Err(ApplyFault::Bad) => Ok(None),
        Err(ApplyFault::Memory) => Err(AllocError),
    }
}

// Makes the changes of each list in turn. `Bad` comes exactly where they don't all apply.
fn make_all(alloc: Global, state: &mut State, lists: Batch<Batch<Change>>) -> Result<(), ApplyFault>
    ensures ok { OnOk result (AllApply (joined lists) state.old.state) }
    ensures gives { OnOk result (state.new.state ≡ applied (joined lists) state.old.state) }
    ensures bad { result ≡ Err Bad → ¬ AllApply (joined lists) state.old.state }
{
    for list in lists.into_vec() {
        make(alloc, state, list)?;
    }
    Ok(())
}

/// Makes the changes of one list. `Bad` comes exactly where they don't all apply; some may be made then.
pub fn make(alloc: Global, state: &mut State, changes: Batch<Change>) -> Result<(), ApplyFault>
    ensures ok { OnOk result (AllApply changes state.old.state) }
    ensures gives { OnOk result (state.new.state ≡ applied changes state.old.state) }
    ensures bad { result ≡ Err Bad → ¬ AllApply changes state.old.state }
{
    for change in changes.into_vec() {
        state.apply(alloc, change)?;
    }
    Ok(())
}
