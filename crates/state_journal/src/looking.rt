//! What a journal holds, as it is read from its disk.
ghost use Rattle.std.specs.Prelude.{◌≡◌, ◌≢◌, ℕ, List, Err, IfOk, IfSome, IsTrue, None, Ok};
ghost use Rattle.core_state.specs.State.{StateData};
ghost use Rattle.heat_disk.specs.Calls.{ReadsAlike};
ghost use Rattle.heat_value.specs.Counts.{Rose};
ghost use Rattle.row_journal.specs.Images.{ImageData};
ghost use Rattle.row_journal.specs.Openings.{GoesOn};
ghost use Rattle.row_journal.specs.Ready.{IsReady};
ghost use Rattle.state_journal.specs.Faults.{open_fault};
ghost use Rattle.state_journal.specs.Payloads.{Give};
ghost use Rattle.state_journal.specs.Readings.{Holds, IsKnownBehind, ReadAs};

use crate::reading::{leads_on, state_of};
use core_state::State;
use heat_disk::Disk;
use record_keeper::OpenFault;
use row_journal::{Contents, Journal, Payload, ReadFault};
use std::alloc::{AllocError, Global};

/// The state that the journal's disk holds.
pub(crate) fn look<D: Disk>(alloc: Global, journal: &mut Journal<D>) -> Result<State, OpenFault>
    ensures read { IsTrue (D.shown journal.old.disk).tells →
        IfOk result (λ s. ReadAs (D.shown journal.old.disk).seen s.state) }
    ensures given { IfOk result (λ s. (payloads : List (List ℕ)) × Give payloads s.state) }
    ensures foreign { result ≡ Err OpenFault.Foreign → IsTrue (D.shown journal.old.disk).tells →
        (s : StateData) → ¬ Holds s (D.shown journal.old.disk).seen }
    ensures alike { IsTrue (D.shown journal.old.disk).tells →
        ReadsAlike (D.shown journal.old.disk) (D.shown journal.new.disk) }
    ensures ready { IsTrue (D.shown journal.old.disk).tells → (image : ImageData) →
        IsReady image (D.shown journal.old.disk) → IsReady image (D.shown journal.new.disk) }
    ensures place { journal.new.place ≡ journal.old.place }
    ensures failed { journal.new.failed ≡ journal.old.failed }
    ensures same { GoesOn (D.shown journal.old.disk) (D.shown journal.new.disk)
        (D.faults journal.old.disk) (D.faults journal.new.disk) }
    ensures cause { result ≡ Err OpenFault.DiskFault →
        Rose (D.faults journal.old.disk) (D.faults journal.new.disk) }
{
    match journal.reread(alloc) {
        Ok(contents) => held(alloc, &contents),
        Err(fault) => Err(fault_of(fault)),
    }
}

// The state that was found; Foreign where there is none.
fn held(alloc: Global, contents: &Contents) -> Result<State, OpenFault>
    ensures some { IfOk result (λ s. Give contents.now.payloads.items s.state) }
    ensures known { IfOk result (λ _. IsKnownBehind contents.now.payloads.items contents.now.pending) }
    ensures none { result ≡ Err OpenFault.Foreign →
        (s : StateData) → ¬ Give contents.now.payloads.items s }
    ensures other { result ≢ Err OpenFault.DiskFault }
{
    match known(alloc, &contents.payloads, &contents.pending) {
        Ok(Some(state)) => Ok(state),
        Ok(None) => Err(OpenFault::Foreign),
        Err(_) => Err(OpenFault::Memory),
    }
}

// The state of these payloads, where it is known whether the one behind them leads on from it.
fn known(
    alloc: Global,
    payloads: &[Payload],
    pending: &Option<Payload>,
) -> Result<Option<State>, AllocError>
    ensures some { IfOk result (λ o. IfSome o (λ s. Give payloads.now s.state)) }
    ensures known { IfOk result (λ o. IfSome o (λ _. IsKnownBehind payloads.now pending.now)) }
    ensures none { result ≡ Ok None → (s : StateData) → ¬ Give payloads.now s }
{
    let Some(state) = state_of(alloc, payloads)? else {
        return Ok(None);
    };
    if let Some(payload) = pending {
        leads_on(alloc, &state, payload)?;
    }
    Ok(Some(state))
}

/// Why there is no state, where a journal wasn't read.
pub(crate) fn fault_of(fault: ReadFault) -> OpenFault
    ensures { result ≡ open_fault fault }
{
    match fault {
        ReadFault::Foreign => OpenFault::Foreign,
        ReadFault::Disk => OpenFault::DiskFault,
        ReadFault::Memory => OpenFault::Memory,
    }
}
