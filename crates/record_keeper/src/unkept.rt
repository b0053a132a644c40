//! No keeper: each opening gives the empty state.

use crate::keeper::{KeepFailed, Keeper};
use crate::open_fault::OpenFault;
use core_state::{Ready, State};
use std::alloc::{AllocError, Global};

/// Keeps nothing, and never fails. What is appended is gone with the program.
#[derive(Clone, Copy, Debug, Drop)]
pub struct Unkept;

impl Keeper for Unkept {
    ghost use Rattle.record_keeper.specs.Nothing.{nothing_kept, opens_empty, nothing_kept-lawful};

    ghost shown = { λ _. nothing_kept };

    ghost faults = { λ _. 0 };

    ghost may_open = { λ _. opens_empty };

    ghost has_room = { λ _ _. Unit {0} };

    ghost has_copy_room = { λ _ _. Unit {0} };

    ghost lawful = { λ _. nothing_kept-lawful };

    fn open(&mut self, alloc: Global) -> Result<State, OpenFault> {
        Ok(State::new(alloc))
    }

    fn reserve(&mut self, _changes: &[Ready]) -> Result<(), AllocError> {
        Ok(())
    }

    fn append(&mut self, _changes: &[Ready]) -> Result<(), KeepFailed> {
        Ok(())
    }

    fn reread(&mut self, _s: &State) -> Result<bool, OpenFault> {
        Ok(true)
    }

    fn is_long(&self) -> bool {
        false
    }

    fn is_old(&self) -> bool {
        false
    }

    fn can_compact(&self) -> bool {
        false
    }

    fn reserve_compact(&mut self, _s: &State) -> Result<(), AllocError> {
        Ok(())
    }

    fn compact(&mut self, _s: &State) -> Result<(), KeepFailed> {
        Ok(())
    }
}
