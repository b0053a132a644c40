//! What is ordered of a book: commands on stacks, and engines that stop or are enlisted.
ghost use Rattle.std.specs.Prelude.{◌≡◌, ℕ, Bool, List, None, Err};
ghost use Rattle.heat_plan.specs.Plans.{PlanData};
ghost use Rattle.step_relation.specs.Refusals.{RefusesCancel, RefusesCreate, RefusesDelete};
ghost use Rattle.step_relation.specs.Refusals.{RefusesEnlist, RefusesStop, RefusesUpdate};
ghost use Rattle.command_steps.specs.Answers.{Cancels, Creates, Deletes, Updates};
ghost use Rattle.takeover_steps.specs.Engines.{Enlists, Stops};
ghost use Rattle.book.specs.Kept.{IsSameBook};
ghost use Rattle.book.specs.Makings.{Does};
ghost use Rattle.book.specs.Quiet.{page};
ghost use Rattle.book.specs.Halts.{Halts, IsRefused};
ghost use Rattle.book.specs.Recording.{Records};

use crate::book::Book;
use crate::commanding::{StackCommand, make_order};
use crate::engines::{make_enlisting, make_stop};
use crate::halting::halt_after;
use heat_plan::{EngineNo, Refusal, TravNo};
use provider::Provider;
use record_keeper::Keeper;

impl<K: Keeper, P: Provider> Book<K, P> {
    /// A command on a stack, by the reader of commands. Gives the traversal that was drawn.
    pub fn command(&mut self, c: StackCommand) -> Result<TravNo, Refusal>
        ensures created { (name : List ℕ) (plan : PlanData) (rollback : Bool)
            → c ≡ StackCommand.Create name plan rollback
            → Does (Creates self.old.state name plan rollback)
            (RefusesCreate self.old.state name plan rollback) self.old.state.next.trav
            (page self.old.state self.old.entries) (page self.new.state self.new.entries) result }
        ensures updated { (name : List ℕ) (plan : PlanData) (rollback : Bool)
            → c ≡ StackCommand.Update name plan rollback
            → Does (Updates self.old.state name plan rollback)
            (RefusesUpdate self.old.state name plan rollback) self.old.state.next.trav
            (page self.old.state self.old.entries) (page self.new.state self.new.entries) result }
        ensures deleted { (name : List ℕ) → c ≡ StackCommand.Delete name
            → Does (Deletes self.old.state name) (RefusesDelete self.old.state name)
            self.old.state.next.trav
            (page self.old.state self.old.entries) (page self.new.state self.new.entries) result }
        ensures cancelled { (name : List ℕ) → c ≡ StackCommand.Cancel name
            → Does (Cancels self.old.state name) (RefusesCancel self.old.state name)
            self.old.state.next.trav
            (page self.old.state self.old.entries) (page self.new.state self.new.entries) result }
        ensures records { self.old.halt ≡ None → Records K.shown P.cloud self.old self.new }
        ensures live { self.new.state.live ≡ self.old.state.live }
        ensures cloud { self.new.cloud ≡ self.old.cloud }
        ensures same { IsSameBook self.old self.new }
        ensures halt { Halts K.faults (Err Refusal.DiskFault) self.old self.new result }
        ensures halted { IsRefused self.old self.new (Err Refusal.Memory) result }
    {
        if self.halt.is_some() {
            return Err(Refusal::Memory);
        }
        let done = make_order(
            self.alloc,
            &mut self.state,
            &mut self.entries,
            &mut self.keeper,
            c,
        );
        self.halt = halt_after(&done);
        done
    }

    /// Stops an engine; its job stays, for others to take over.
    pub fn stop(&mut self, e: EngineNo) -> Result<(), Refusal>
        ensures stopped { Does (Stops self.old.state e) (RefusesStop self.old.state e) tt
            (page self.old.state self.old.entries) (page self.new.state self.new.entries) result }
        ensures records { self.old.halt ≡ None → Records K.shown P.cloud self.old self.new }
        ensures cloud { self.new.cloud ≡ self.old.cloud }
        ensures same { IsSameBook self.old self.new }
        ensures halt { Halts K.faults (Err Refusal.DiskFault) self.old self.new result }
        ensures halted { IsRefused self.old self.new (Err Refusal.Memory) result }
    {
        if self.halt.is_some() {
            return Err(Refusal::Memory);
        }
        let done = make_stop(
            self.alloc,
            &mut self.state,
            &mut self.entries,
            &mut self.keeper,
            e,
        );
        self.halt = halt_after(&done);
        done
    }

    /// Enlists an engine. Gives its number.
    pub fn enlist(&mut self) -> Result<EngineNo, Refusal>
        ensures enlisted { Does (Enlists self.old.state) (RefusesEnlist self.old.state)
            self.old.state.next.engine
            (page self.old.state self.old.entries) (page self.new.state self.new.entries) result }
        ensures records { self.old.halt ≡ None → Records K.shown P.cloud self.old self.new }
        ensures cloud { self.new.cloud ≡ self.old.cloud }
        ensures same { IsSameBook self.old self.new }
        ensures halt { Halts K.faults (Err Refusal.DiskFault) self.old self.new result }
        ensures halted { IsRefused self.old self.new (Err Refusal.Memory) result }
    {
        if self.halt.is_some() {
            return Err(Refusal::Memory);
        }
        let done = make_enlisting(
            self.alloc,
            &mut self.state,
            &mut self.entries,
            &mut self.keeper,
        );
        self.halt = halt_after(&done);
        done
    }
}
