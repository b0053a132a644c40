//! Whether a book is halted, and by what.
ghost use Rattle.std.specs.Prelude.{◌≡◌, Some};
ghost use Rattle.book.specs.Halts.{IsForeignCause, MayHalt, first_cause};

use crate::book::Book;
use crate::halting::Halt;
use provider::Provider;
use record_keeper::Keeper;

impl<K: Keeper, P: Provider> Book<K, P> {
    /// Why the book is halted; none where it isn't.
    pub fn halted(&self) -> Option<Halt>
        ensures value { result ≡ self.now.halt }
        ensures cause { MayHalt K.faults self.now result }
    {
        self.halt
    }

    /// Halts the book: from then on a call that would make a step answers `Memory` and changes nothing.
    /// A book that is halted keeps its cause.
    pub fn halt(&mut self, why: Halt)
        requires worn { MayHalt K.faults self.old (Some why) }
        requires outside { IsForeignCause why }
        ensures { self.new ≡ record self.old { halt = first_cause self.old.halt why } }
    {
        if self.halt.is_none() {
            self.halt = Some(why);
        }
    }
}
