//! Opening a journal with the state that it holds.
ghost use Rattle.state_journal.specs.Openings.{OpensAs, Standing};

use crate::looking::{fault_of, look};
use core_state::State;
use heat_disk::Disk;
use record_keeper::OpenFault;
use row_journal::Journal;
use state_images::is_tied;
use std::alloc::Global;

/// Opens it, where its disk holds the state of an image; else it is closed. What the disk holds is read before a
/// byte of it is written.
pub(crate) fn open<D: Disk>(alloc: Global, journal: &mut Journal<D>) -> Result<State, OpenFault>
    ensures { OpensAs
        (record {
          disk = D.shown journal.old.disk;
          faults = D.faults journal.old.disk;
          place = journal.old.place;
          failed = journal.old.failed;
        })
        (record {
          disk = D.shown journal.new.disk;
          faults = D.faults journal.new.disk;
          place = journal.new.place;
          failed = journal.new.failed;
        }) result }
{
    journal.close();
    let state = match look(alloc, journal) {
        Ok(state) => state,
        Err(fault) => return Err(fault),
    };
    match is_tied(alloc, &state) {
        Ok(true) => {}
        Ok(false) => return Err(OpenFault::Foreign),
        Err(_) => return Err(OpenFault::Memory),
    }
    match journal.open(alloc) {
        Ok(_) => Ok(state),
        Err(fault) => Err(fault_of(fault)),
    }
}
