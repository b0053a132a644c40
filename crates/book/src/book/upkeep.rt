//! A book's restart, and the compaction of its keeper.
ghost use Rattle.std.specs.Prelude.{◌≡◌, ◌≤◌, None, Err, IfErr, OnOk};
ghost use Rattle.step_relation.specs.Steps.{engine_limit};
ghost use Rattle.book.specs.Kept.{IsSameBook};
ghost use Rattle.book.specs.Scenes.{scene_of};
ghost use Rattle.book.specs.Halts.{IsRefused};
ghost use Rattle.book.specs.Recording.{Records};
ghost use Rattle.book.specs.Restarts.{IsHaltedBy, RestartDoes};
ghost use Rattle.book.specs.Compactions.{Compacts, LeavesState};

use crate::book::Book;
use crate::compacting::{Uncompacted, shorten};
use crate::halting::{halt_behind, halt_compacting};
use crate::restarting::{Unrestarted, restart_with};
use provider::Provider;
use record_keeper::Keeper;

impl<K: Keeper, P: Provider> Book<K, P> {
    /// Stops all engines, and enlists so many, where the keeper reads as the book's state and the cloud's
    /// list agrees with it. A restart that is refused halts the book.
    pub fn restart(&mut self, workers: u8) -> Result<(), Unrestarted>
        requires some { 1 ≤ workers }
        requires few { workers ≤ engine_limit }
        ensures restarted { self.old.halt ≡ None → OnOk result
            (RestartDoes workers (scene_of P.cloud self.old) (scene_of P.cloud self.new)) }
        ensures goes_on { self.old.halt ≡ None → OnOk result (self.new.halt ≡ None) }
        ensures refused { self.old.halt ≡ None
            → IfErr result (IsHaltedBy K.shown K.faults P.cloud workers self.old self.new) }
        ensures records { self.old.halt ≡ None → Records K.shown P.cloud self.old self.new }
        ensures later { K.faults self.old.keeper ≤ K.faults self.new.keeper }
        ensures same { IsSameBook self.old self.new }
        ensures halted { IsRefused self.old self.new (Err Unrestarted.Memory) result }
    {
        if self.halt.is_some() {
            return Err(Unrestarted::Memory);
        }
        let done = restart_with(
            self.alloc,
            &mut self.state,
            &mut self.entries,
            &mut self.keeper,
            &mut self.cloud,
            workers,
        );
        self.halt = halt_behind(&done);
        done
    }

    /// Puts the state in the place of all records that the keeper keeps, where it may still be compacted.
    pub fn compact(&mut self) -> Result<(), Uncompacted>
        ensures compacted { self.old.halt ≡ None → Compacts K.shown K.faults self.old self.new result }
        ensures leaves { self.old.halt ≡ None → LeavesState K.shown self.old self.new }
        ensures later { K.faults self.old.keeper ≤ K.faults self.new.keeper }
        ensures halted { IsRefused self.old self.new (Err Uncompacted.Memory) result }
    {
        if self.halt.is_some() {
            return Err(Uncompacted::Memory);
        }
        let done = shorten(&mut self.keeper, &self.state);
        self.halt = halt_compacting(done);
        done
    }

    /// Whether a compaction would make what the keeper keeps shorter by much.
    pub fn is_long(&self) -> bool
        ensures { result ≡ (K.shown self.now.keeper).is_long }
    {
        self.keeper.is_long()
    }
}
