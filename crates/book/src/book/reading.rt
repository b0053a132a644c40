//! What a book keeps, and what is read of it.
ghost use Rattle.std.specs.Prelude.{◌≡◌, ◌↔◌, ◌-◌, ◌^◌, ◌<◌, ℕ, min, None, Some, IsTrue, Contains};
ghost use Rattle.dep_graph.specs.Lists.{IsRising};
ghost use Rattle.step_relation.specs.Images.{IsMade};
ghost use Rattle.book.specs.Kept.{IsHeld, HasRun, HasImage, HasHeadline};
ghost use Rattle.book.specs.Kept.{IsSoundBook, IsSoundOpening};
ghost use Rattle.book.specs.Quiet.{IsIdle, number_of};
ghost use Rattle.book.specs.Crashes.{LeavesBehind};

use crate::book::Book;
use core_state::{Entry, Next, State};
use heat_plan::{EngineNo, StackName, StackNo, WORN};
use provider::Provider;
use record_keeper::Keeper;

impl<K: Keeper, P: Provider> Book<K, P> {
    /// What every book keeps: its history is that of a run from an admitted image, which the cloud has
    /// followed; the keeper has gone on from the opening, and unless its fault halted the book it stands
    /// for the state; a crash since the opening left the state behind a first part of the history, or
    /// behind one step there. Where the opening is sound the state is, and the main theorem holds of the
    /// history. It does nothing.
    pub fn promises(&self)
        ensures run { HasRun P.cloud self.now }
        ensures image { HasImage P.cloud self.now }
        ensures held { IsHeld (K.shown self.now.origin.keeper) (K.shown self.now.keeper)
            (K.faults self.now.origin.keeper) (K.faults self.now.keeper) self.now.state self.now.halt }
        ensures left { LeavesBehind K.shown P.cloud self.now }
        ensures made { IsMade self.now.state }
        ensures sound { IsSoundOpening P.cloud self.now → IsSoundBook P.cloud self.now }
        ensures headline { IsSoundOpening P.cloud self.now → HasHeadline P.cloud self.now }
    {
        let _ = &self.entries;
    }

    /// The history since the opening.
    pub fn entries(&self) -> &[Entry]
        ensures { result.now ≡ self.now.entries }
    {
        self.entries.as_slice()
    }

    /// The state.
    pub fn state(&self) -> &State
        ensures { result.now.state ≡ self.now.state }
    {
        &self.state
    }

    /// The state at the opening.
    pub fn opening(&self) -> &State
        ensures { result.now.state ≡ self.now.opening }
    {
        &self.opening
    }

    /// The live engines, by rising number.
    pub fn live(&self) -> &[EngineNo]
        ensures value { result.now ≡ self.now.state.live }
        ensures drawn { (e : ℕ) → Contains result.now e → e < self.now.state.next.engine }
        ensures rising { IsRising result.now }
    {
        self.state.live()
    }

    /// Whether no letter waits and there is no job.
    pub fn is_idle(&self) -> bool
        ensures { IsTrue result ↔ IsIdle self.now.state }
    {
        self.state.letters().is_empty() && self.state.jobs().is_empty()
    }

    /// The number of the stack of this name, or the one that a create would draw, or 2^62 - 1 where
    /// that would be 2^62.
    pub fn stack_no(&self, name: &StackName) -> StackNo
        ensures { result ≡ number_of self.now.state name.now }
    {
        match self.state.stack(name) {
            Some(stack) => stack.no,
            None => drawn_next(self.state.next().stack),
        }
    }
}

// The number that is drawn next, or the last one.
fn drawn_next(next: Next) -> StackNo
    ensures { result ≡ min next (2 ^ 62 - 1) }
{
    match StackNo::new(next.get()) {
        Some(no) => no,
        None => last_number(),
    }
}

// The last number of a sort.
fn last_number() -> StackNo
    ensures { result ≡ 2 ^ 62 - 1 }
{
    match StackNo::new(WORN - 1) {
        Some(no) => no,
        None => unreachable!(),
    }
}
