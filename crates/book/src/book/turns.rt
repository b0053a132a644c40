//! A book's turns: the steps of its engines.
ghost use Rattle.std.specs.Prelude.{◌≡◌, ◌<◌, None, IfOk};
ghost use Rattle.check_steps.specs.Looks.{HasNext, IsLook, IsWork};
ghost use Rattle.check_steps.specs.Prepares.{IsPrepared};
ghost use Rattle.book.specs.Kept.{IsSameBook};
ghost use Rattle.book.specs.Scenes.{scene_of};
ghost use Rattle.book.specs.Turned.{Turned};
ghost use Rattle.book.specs.Commits.{Commits};
ghost use Rattle.book.specs.Halts.{Halts, IsRefused};
ghost use Rattle.book.specs.Recording.{Records};

use crate::book::Book;
use crate::committing::{Proposal, commit_of};
use crate::halting::halt_by;
use crate::turning::{Turn, turn_of};
use check_steps::{Look, Prepared, Work, look};
use heat_plan::EngineNo;
use provider::Provider;
use record_keeper::Keeper;
use std::alloc::AllocError;
use type_catalog::Registry;

impl<K: Keeper, P: Provider> Book<K, P> {
    /// One turn of an engine whose number was drawn: at most one request is made. A change of properties is
    /// judged by the registry's judge of the kind.
    pub fn turn(&mut self, e: EngineNo, registry: &Registry) -> Turn
        requires { e < self.old.state.next.engine }
        ensures turned { Turned e (scene_of P.cloud self.old) (scene_of P.cloud self.new) result }
        ensures records { self.old.halt ≡ None → Records K.shown P.cloud self.old self.new }
        ensures live { self.new.state.live ≡ self.old.state.live }
        ensures same { IsSameBook self.old self.new }
        ensures halt { Halts K.faults Turn.DiskFault self.old self.new result }
        ensures halted { IsRefused self.old self.new Turn.Memory result }
    {
        if self.halt.is_some() {
            return Turn::Memory;
        }
        let turn = turn_of(
            self.alloc,
            registry,
            &mut self.state,
            &mut self.entries,
            &mut self.keeper,
            &mut self.cloud,
            e,
        );
        self.halt = halt_by(turn);
        turn
    }

    /// An engine's next step, whose number was drawn, for `prepare` and `commit`. Between the two calls
    /// others may make steps.
    pub fn look(&self, e: EngineNo) -> Result<Look, AllocError>
        requires { e < self.now.state.next.engine }
        ensures { IfOk result (IsLook self.now.state e) }
    {
        look(&self.state, e)
    }

    /// Makes the step that was looked at, with what `prepare` gave for it. Where another step of the
    /// engine is next by now, it answers Stepped and changes nothing.
    pub fn commit(&mut self, e: EngineNo, work: Work, prepared: Prepared) -> Turn
        requires drawn { e < self.old.state.next.engine }
        requires prepared { IsPrepared work prepared }
        ensures committed { Commits e work
            (scene_of P.cloud self.old) (scene_of P.cloud self.new) result }
        ensures unprepared { prepared ≡ Prepared.Memory → HasNext self.old.state e
            → IsWork self.old.state e work → result ≡ Turn.Memory }
        ensures records { self.old.halt ≡ None → Records K.shown P.cloud self.old self.new }
        ensures live { self.new.state.live ≡ self.old.state.live }
        ensures same { IsSameBook self.old self.new }
        ensures halt { Halts K.faults Turn.DiskFault self.old self.new result }
        ensures halted { IsRefused self.old self.new Turn.Memory result }
    {
        if self.halt.is_some() {
            return Turn::Memory;
        }
        let turn = commit_of(
            self.alloc,
            &mut self.state,
            &mut self.entries,
            &mut self.keeper,
            &mut self.cloud,
            e,
            Proposal { work, prepared },
        );
        self.halt = halt_by(turn);
        turn
    }
}
