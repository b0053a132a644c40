//! What a simulated cloud is made with.
use crate::held::Held;
use heat_value::{Seq, Text};
use std::alloc::Global;

/// How many resources of a kind may be alive, at most 1,000,000.
#[derive(Debug, Drop)]
pub struct KindQuota {
    pub kind: Text,
    pub most: u32,
}

/// How many polls are left after each accepted request for a kind, at most 64.
#[derive(Debug, Drop)]
pub struct KindDelay {
    pub kind: Text,
    pub polls: u8,
}

/// The code with which polls of a resource's name are Broken.
#[derive(Debug)]
pub struct NameCode {
    pub name: Text,
    pub code: Text,
}

impl Drop for NameCode {
    fn drop(self) {
        let NameCode { name: _, code: _ } = self;
    }
}

/// The resources from the start, the quotas and delays of kinds, the broken names, and the numbers of
/// the calls, from 1, that fail with nothing done and with their effect done.
#[derive(Debug, Drop)]
pub struct Settings {
    pub alive: Seq<Held>,
    pub quotas: Seq<KindQuota>,
    pub delays: Seq<KindDelay>,
    pub broken: Seq<NameCode>,
    pub faults: Seq<u64>,
    pub late: Seq<u64>,
}

impl Settings {
    ghost use Rattle.sim_cloud.specs.Settings.{HasNothingSet, IsFit};

    /// Nothing is set.
    pub fn empty(alloc: Global) -> Settings
        ensures nothing { HasNothingSet result }
        ensures fit { IsFit result }
    {
        Settings {
            alive: Seq::new(alloc),
            quotas: Seq::new(alloc),
            delays: Seq::new(alloc),
            broken: Seq::new(alloc),
            faults: Seq::new(alloc),
            late: Seq::new(alloc),
        }
    }
}
