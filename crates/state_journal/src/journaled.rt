//! A state over a journal: what it shows, and its disk.

use heat_disk::Disk;
use plan_codec::Sheet;
use row_journal::Journal;
use std::alloc::Global;
use std::marker::Model;

/// A journal of any disk, as the engine's keeper of records. Its records are the changes of the steps.
#[derive(Drop)]
pub struct Journaled<D: Disk> {
    pub(crate) journal: Journal<D>,
    pub(crate) sheet: Sheet,
    pub(crate) alloc: Global,
}

impl<D: Disk> Model for Journaled<D> {
    ghost use Rattle.state_journal.specs.Shown.{JournaledData};

    ghost Value = { JournaledData D };

    ghost view = { λ k. record { journal = k.journal; sheet = k.sheet } };
}

impl<D: Disk> Journaled<D> {
    ghost use Rattle.std.specs.Prelude.{◌≡◌, true};

    /// Over this disk, and not open yet.
    pub fn new(alloc: Global, disk: D) -> Journaled<D>
        ensures disk { result.journal.disk ≡ disk }
        ensures closed { result.journal.failed ≡ true }
    {
        Journaled {
            journal: Journal::unopened(alloc, disk),
            sheet: Sheet::new(alloc),
            alloc,
        }
    }

    /// Gives the disk back.
    pub fn inner(self) -> D
        ensures { result ≡ self.journal.disk }
    {
        let Journaled {
            journal,
            sheet: _,
            alloc: _,
        } = self;
        journal.inner()
    }
}
