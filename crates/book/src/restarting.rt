//! A restart: the keeper is read again, the cloud asked what is alive, and compared; then all engines
//! stop, and others are enlisted.
ghost use Rattle.std.specs.Prelude.{◌≡◌, ◌≤◌};
ghost use Rattle.step_relation.specs.Steps.{engine_limit};
ghost use Rattle.book.specs.Keeping.{IsReady};
ghost use Rattle.book.specs.Restarts.{Rereads, Restarts, halt_of, refused_for, restarted_for, unread_for};
ghost use Rattle.book.specs.Scenes.{scene};
ghost use Rattle.book.specs.WorkableOver.{IsWorkable};

use crate::admitting::admit;
use crate::halting::Halt;
use crate::history::History;
use crate::making::make_step;
use core_state::State;
use heat_plan::{Refusal, Token};
use opening_check::Finding;
use provider::Provider;
use record_keeper::{Keeper, OpenFault};
use std::alloc::{AllocError, Global};

/// Why a restart is refused, or no book is opened.
#[derive(Debug, PartialEq, Eq, Drop)]
pub enum Unrestarted {
    /// What the keeper reads as is no image, or another state than the book's.
    Foreign,
    /// The state and the cloud's list disagree.
    Disagree(Token, Finding),
    /// The keeper failed.
    DiskFault,
    /// The cloud didn't tell what it has.
    CloudFault,
    /// An engine's number would come to 2^62.
    Worn,
    /// There was no memory, or the book was halted.
    Memory,
}

impl From<AllocError> for Unrestarted {
    ghost use Rattle.std.specs.Prelude.{◌≡◌};
    ghost use Rattle.book.specs.declared.restarting.Unrestarted.TheVariants.{Memory};

    ghost from_gives = { λ _ e. e ≡ Memory };

    fn from(_error: AllocError) -> Unrestarted {
        Unrestarted::Memory
    }
}

/// Restarts with so many engines.
pub(crate) fn restart_with<K: Keeper, P: Provider>(
    alloc: Global,
    state: &mut State,
    entries: &mut History,
    keeper: &mut K,
    cloud: &mut P,
    workers: u8,
) -> Result<(), Unrestarted>
    requires some { 1 ≤ workers }
    requires few { workers ≤ engine_limit }
    requires workable { IsWorkable state.old.state }
    requires ready { IsReady (K.shown keeper.old) state.old.state }
    ensures { Restarts workers
        (scene state.old.state entries.old.items (P.cloud cloud.old))
        (scene state.new.state entries.new.items (P.cloud cloud.new))
        (K.shown keeper.old) (K.shown keeper.new) (K.faults keeper.old) (K.faults keeper.new) result }
{
    match reread(keeper, state) {
        Ok(()) => {}
        Err(why) => return Err(why),
    }
    match admit(alloc, state, cloud) {
        Ok(()) => {}
        Err(why) => return Err(why),
    }
    let made = takeover_steps::restart(alloc, state, workers);
    restarted(make_step(state, entries, keeper, made))
}

// What the step of a restart came to.
fn restarted(done: Result<(), Refusal>) -> Result<(), Unrestarted>
    ensures { result ≡ restarted_for done }
{
    match done {
        Ok(()) => Ok(()),
        Err(refusal) => Err(refused_for(refusal)),
    }
}

// What a refusal of that step comes to.
fn refused_for(refusal: Refusal) -> Unrestarted
    ensures { result ≡ refused_for refusal }
{
    match refusal {
        Refusal::DiskFault => Unrestarted::DiskFault,
        Refusal::Worn => Unrestarted::Worn,
        Refusal::StackExists
        | Refusal::NoStack
        | Refusal::Deleting
        | Refusal::TooManyStacks
        | Refusal::TooManyRows
        | Refusal::NoEngine
        | Refusal::TooManyEngines
        | Refusal::NotRunning
        | Refusal::Memory => Unrestarted::Memory,
    }
}

// Reads again what the keeper holds; it is to be this state.
fn reread<K: Keeper>(keeper: &mut K, state: &State) -> Result<(), Unrestarted>
    requires { IsReady (K.shown keeper.old) state.now.state }
    ensures { Rereads state.now.state (K.shown keeper.old) (K.shown keeper.new)
        (K.faults keeper.old) (K.faults keeper.new) result }
{
    match keeper.reread(state) {
        Ok(true) => Ok(()),
        Ok(false) => Err(Unrestarted::Foreign),
        Err(fault) => Err(unread(fault)),
    }
}

/// Why nothing is read.
pub(crate) fn unread(fault: OpenFault) -> Unrestarted
    ensures { result ≡ unread_for fault }
{
    match fault {
        OpenFault::Foreign => Unrestarted::Foreign,
        OpenFault::DiskFault => Unrestarted::DiskFault,
        OpenFault::Memory => Unrestarted::Memory,
    }
}

/// What halts a book whose restart is refused.
pub(crate) fn halt_for(why: &Unrestarted) -> Halt
    ensures { result ≡ halt_of why.now }
{
    match why {
        Unrestarted::DiskFault => Halt::DiskFault,
        Unrestarted::Foreign
        | Unrestarted::Disagree(_, _)
        | Unrestarted::CloudFault
        | Unrestarted::Worn
        | Unrestarted::Memory => Halt::Refused,
    }
}
