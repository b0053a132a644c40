//! Why a book is halted.
ghost use Rattle.std.specs.Prelude.{◌≡◌};
ghost use Rattle.book.specs.Halting.{halt_after, halt_behind, halt_by, halt_compacting, halt_for};

use crate::compacting::Uncompacted;
use crate::restarting::{Unrestarted, halt_for};
use crate::turning::Turn;
use heat_plan::Refusal;

/// What halted a book. `Worn`: the next step of a live engine would bring a number or a key to 2^62.
/// `Memory`: somebody's work found none. `DiskFault`: the keeper failed; it keeps the state, or the one
/// behind the step that it was to keep. `Refused`: a restart was refused, for anything else.
#[derive(Clone, Copy, Debug, PartialEq, Eq)]
pub enum Halt {
    Worn,
    Memory,
    DiskFault,
    Refused,
}

/// What halts a book that has turned.
pub(crate) fn halt_by(turn: Turn) -> Option<Halt>
    ensures { result ≡ halt_by turn }
{
    match turn {
        Turn::DiskFault => Some(Halt::DiskFault),
        Turn::Stepped | Turn::Idle | Turn::Lost | Turn::Worn | Turn::Memory => None,
    }
}

/// What halts a book that was to make a step.
pub(crate) fn halt_after<T>(done: &Result<T, Refusal>) -> Option<Halt>
    ensures { result ≡ halt_after done.now }
{
    match done {
        Ok(_) => None,
        Err(refusal) => refusal_halt(*refusal),
    }
}

// What halts a book whose step was refused.
fn refusal_halt(refusal: Refusal) -> Option<Halt>
    ensures { result ≡ halt_for refusal }
{
    match refusal {
        Refusal::DiskFault => Some(Halt::DiskFault),
        Refusal::StackExists
        | Refusal::NoStack
        | Refusal::Deleting
        | Refusal::TooManyStacks
        | Refusal::TooManyRows
        | Refusal::Worn
        | Refusal::NoEngine
        | Refusal::TooManyEngines
        | Refusal::NotRunning
        | Refusal::Memory => None,
    }
}

/// What halts a book that was to restart.
pub(crate) fn halt_behind(done: &Result<(), Unrestarted>) -> Option<Halt>
    ensures { result ≡ halt_behind done.now }
{
    match done {
        Ok(()) => None,
        Err(why) => Some(halt_for(why)),
    }
}

/// What halts a book that was to be compacted.
pub(crate) fn halt_compacting(done: Result<(), Uncompacted>) -> Option<Halt>
    ensures { result ≡ halt_compacting done }
{
    match done {
        Ok(()) | Err(Uncompacted::Memory) => None,
        Err(Uncompacted::DiskFault) => Some(Halt::DiskFault),
    }
}
