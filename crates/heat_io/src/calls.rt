//! The calls of a stream in memory: numbered from 1, and those that are listed fail.
ghost use Rattle.std.specs.Prelude.{◌≡◌, ◌≤◌, IsTrue, IfOk};
ghost use Rattle.heat_value.specs.Counts.{Rose};
ghost use Rattle.heat_io.specs.Numbered.{fails_next, counted, uncalled};

use std::alloc::{AllocError, Global};
use std::marker::Model;

/// Which calls fail, how many were made, and how many of them have failed.
#[derive(Drop)]
pub(crate) struct Calls {
    fails: Vec<u64>,
    made: u64,
    faults: u64,
}

impl Model for Calls {
    ghost use Rattle.heat_io.specs.Numbered.{Numbered};

    ghost Value = { Numbered };

    ghost view = { λ c. record { fails = c.fails.items; made = c.made; faults = c.faults } };
}

impl Calls {
    /// None made, and these to fail.
    pub(crate) fn new(alloc: Global, fails: &[u64]) -> Result<Calls, AllocError>
        ensures { IfOk result (λ calls. calls ≡ uncalled fails.now) }
    {
        Ok(Calls {
            fails: Vec::from_slice(alloc, fails)?,
            made: 0,
            faults: 0,
        })
    }

    /// How many of the calls have failed.
    pub(crate) fn faults(&self) -> u64
        ensures { result ≡ self.now.faults }
    {
        self.faults
    }

    /// Numbers a call, and says whether it fails.
    pub(crate) fn count(&mut self) -> bool
        ensures fails { result ≡ fails_next self.old }
        ensures after { self.new ≡ counted self.old }
        ensures later { self.old.faults ≤ self.new.faults }
        ensures cause { IsTrue result → Rose self.old.faults self.new.faults }
    {
        if self.made == u64::MAX {
            return false;
        }
        self.made += 1;
        let fails = self.fails.contains(&self.made);
        if fails {
            self.faults = self.faults.saturating_add(1);
        }
        fails
    }
}
