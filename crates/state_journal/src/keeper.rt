//! The journaled state meets the keeper's trait.

use crate::journaled::Journaled;
use crate::looking::look;
use crate::opening::open;
use core_state::{Ready, State};
use heat_disk::Disk;
use record_keeper::{KeepFailed, Keeper, OpenFault};
use row_codec::{fill, size};
use snapshot_codec::{fill as fill_snapshot, size as snapshot_size};
use std::alloc::{AllocError, Global};

impl<D: Disk> Keeper for Journaled<D> {
    ghost use Rattle.state_journal.specs.Shown.{HasCopyRoom, HasRecordRoom, opens_by, shown_by};
    ghost use Rattle.state_journal.specs.Lawful.{lawful};

    ghost shown = { λ k. shown_by (D.shown k.journal.disk) k.journal.place k.journal.failed };

    ghost faults = { λ k. D.faults k.journal.disk };

    ghost may_open = { λ k. opens_by (D.shown k.journal.disk) };

    ghost has_room = { λ k. HasRecordRoom k.sheet k.journal.place k.journal.room (D.shown k.journal.disk) };

    ghost has_copy_room = { λ k. HasCopyRoom k.sheet k.journal.place k.journal.room (D.shown k.journal.disk) };

    ghost lawful = { λ k. lawful (D.shown k.journal.disk) k.journal.place k.journal.failed
        (D.lawful k.journal.disk) };

    fn open(&mut self, alloc: Global) -> Result<State, OpenFault> {
        open(alloc, &mut self.journal)
    }

    fn reserve(&mut self, changes: &[Ready]) -> Result<(), AllocError> {
        let len = size(self.alloc, changes);
        self.sheet.reserve(len)?;
        self.journal.reserve(len)
    }

    fn append(&mut self, changes: &[Ready]) -> Result<(), KeepFailed> {
        fill(changes, &mut self.sheet);
        match self.journal.append(self.sheet.as_slice()) {
            Ok(()) => Ok(()),
            Err(_) => Err(KeepFailed),
        }
    }

    fn reread(&mut self, s: &State) -> Result<bool, OpenFault> {
        match look(self.alloc, &mut self.journal) {
            Ok(state) => Ok(state.equals(s)),
            Err(fault) => Err(fault),
        }
    }

    fn is_long(&self) -> bool {
        self.journal.is_long()
    }

    fn is_old(&self) -> bool {
        self.journal.version() == 1
    }

    fn can_compact(&self) -> bool {
        self.journal.can_snapshot()
    }

    fn reserve_compact(&mut self, s: &State) -> Result<(), AllocError> {
        let len = snapshot_size(self.alloc, s);
        self.sheet.reserve(len)?;
        self.journal.reserve_snapshot(len)
    }

    fn compact(&mut self, s: &State) -> Result<(), KeepFailed> {
        if !self.journal.can_snapshot() {
            return Ok(());
        }
        fill_snapshot(s, &mut self.sheet);
        match self.journal.snapshot(self.sheet.as_slice()) {
            Ok(()) => Ok(()),
            Err(_) => Err(KeepFailed),
        }
    }
}
