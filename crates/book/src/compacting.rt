//! The compaction of what a keeper keeps, to the state for which it stands.
ghost use Rattle.std.specs.Prelude.{IsTrue};
ghost use Rattle.record_keeper.specs.Shown.{StandsFor};
ghost use Rattle.step_relation.specs.Images.{HasKeepableRows, IsMade};
ghost use Rattle.book.specs.Compactions.{Shortens};

use core_state::State;
use record_keeper::Keeper;

/// Why nothing was compacted.
#[derive(Clone, Copy, Debug, PartialEq, Eq)]
pub enum Uncompacted {
    /// The keeper failed.
    DiskFault,
    /// There was no memory, or the book was halted.
    Memory,
}

/// Compacts what a keeper keeps.
pub(crate) fn shorten<K: Keeper>(keeper: &mut K, state: &State) -> Result<(), Uncompacted>
    requires stands { StandsFor (K.shown keeper.old) state.now.state }
    requires made { IsMade state.now.state }
    requires keepable { HasKeepableRows state.now.state }
    ensures { Shortens state.now.state (K.shown keeper.old) (K.shown keeper.new)
        (K.faults keeper.old) (K.faults keeper.new) result }
{
    if keeper.reserve_compact(state).is_err() {
        return Err(Uncompacted::Memory);
    }
    match keeper.compact(state) {
        Ok(()) => Ok(()),
        Err(_) => Err(Uncompacted::DiskFault),
    }
}
