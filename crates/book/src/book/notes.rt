//! What a book is told from outside: notes, and the end of the input.
ghost use Rattle.std.specs.Prelude.{◌≡◌, ◌≢◌, ◌++◌, ◌∷◌, ◌↔◌, [], None, Err, IsErr, IsTrue, OnOk, OnErr};
ghost use Rattle.core_state.specs.declared.entry.Actor.TheVariants.{Main};
ghost use Rattle.step_relation.specs.Runs.{IsClosed};
ghost use Rattle.step_relation.specs.Steps.{IsNote};
ghost use Rattle.book.specs.Closing.{Closes};
ghost use Rattle.book.specs.Recording.{Records};

use crate::book::Book;
use core_state::{Actor, Entry, What};
use provider::Provider;
use record_keeper::Keeper;
use std::alloc::AllocError;

impl<K: Keeper, P: Provider> Book<K, P> {
    /// Adds what a line shows, a refusal, or how a run ended; nothing where the book is halted.
    pub fn note(&mut self, what: What) -> Result<(), AllocError>
        requires { IsNote what }
        ensures noted { OnOk result (self.new
            ≡ record self.old { entries = self.old.entries ++ record { by = Main; what = what } ∷ [] }) }
        ensures err { OnErr result (self.new ≡ self.old) }
        ensures records { self.old.halt ≡ None → Records K.shown P.cloud self.old self.new }
        ensures halted { self.old.halt ≢ None → IsErr result }
    {
        if self.halt.is_some() {
            return Err(AllocError);
        }
        self.entries.reserve(1)?;
        self.entries.push(Entry {
            by: Actor::Main,
            what,
        });
        Ok(())
    }

    /// Closes the input: tells Closed, where it wasn't told; nothing where the book is halted.
    pub fn close_input(&mut self)
        ensures closed { self.old.halt ≡ None → Closes self.old.entries self.new.entries }
        ensures rest { self.new ≡ record self.old { entries = self.new.entries } }
        ensures records { self.old.halt ≡ None → Records K.shown P.cloud self.old self.new }
        ensures halted { self.old.halt ≢ None → self.new ≡ self.old }
    {
        if self.halt.is_none() {
            self.entries.close();
        }
    }

    /// Whether the input was closed.
    pub fn is_closed(&self) -> bool
        ensures { IsTrue result ↔ IsClosed self.now.entries }
    {
        self.entries.is_closed()
    }
}
