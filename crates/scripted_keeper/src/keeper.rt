//! The scripted keeper meets the keeper's trait.

use crate::kept_answer::KeptAnswer;
use crate::scripted_keeper::ScriptedKeeper;
use core_state::{Ready, State};
use record_keeper::{KeepFailed, Keeper, OpenFault};
use std::alloc::{AllocError, Global};

impl Keeper for ScriptedKeeper {
    ghost use Rattle.scripted_keeper.specs.Scripted.{may_be, shown_by, shown_by-lawful};

    ghost shown = { shown_by };

    ghost faults = { λ k. k.faults };

    ghost may_open = { λ _. may_be };

    ghost has_room = { λ _ _. Unit {0} };

    ghost has_copy_room = { λ _ _. Unit {0} };

    ghost lawful = { shown_by-lawful };

    fn open(&mut self, alloc: Global) -> Result<State, OpenFault> {
        self.going = false;
        match self.take() {
            KeptAnswer::Fails => {
                self.fail();
                Err(OpenFault::DiskFault)
            }
            KeptAnswer::Foreign => Err(OpenFault::Foreign),
            KeptAnswer::Works | KeptAnswer::Differs => {
                self.going = true;
                Ok(State::new(alloc))
            }
        }
    }

    fn reserve(&mut self, _changes: &[Ready]) -> Result<(), AllocError> {
        Ok(())
    }

    fn append(&mut self, _changes: &[Ready]) -> Result<(), KeepFailed> {
        if self.take() == KeptAnswer::Fails {
            self.fail();
            return Err(KeepFailed);
        }
        if self.grows {
            self.long = true;
        }
        Ok(())
    }

    fn reread(&mut self, _s: &State) -> Result<bool, OpenFault> {
        match self.take() {
            KeptAnswer::Works => Ok(true),
            KeptAnswer::Differs => Ok(false),
            KeptAnswer::Foreign => Err(OpenFault::Foreign),
            KeptAnswer::Fails => {
                self.fail();
                Err(OpenFault::DiskFault)
            }
        }
    }

    fn is_long(&self) -> bool {
        self.long
    }

    fn is_old(&self) -> bool {
        self.aged
    }

    fn can_compact(&self) -> bool {
        true
    }

    fn reserve_compact(&mut self, _s: &State) -> Result<(), AllocError> {
        Ok(())
    }

    fn compact(&mut self, _s: &State) -> Result<(), KeepFailed> {
        if self.take() == KeptAnswer::Fails {
            self.fail();
            return Err(KeepFailed);
        }
        self.long = false;
        self.aged = false;
        Ok(())
    }
}
