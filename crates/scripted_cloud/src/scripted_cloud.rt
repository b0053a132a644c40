//! The scripted cloud: an inventory, a script and the place in it.
ghost use Rattle.std.specs.Prelude.{◌≡◌, []};

use crate::scripted_answer::ScriptedAnswer;
use heat_value::Seq;
use sim_cloud::{Inventory, KindQuota};
use std::alloc::Global;

/// A cloud whose calls take one scripted answer each.
#[derive(Debug)]
pub struct ScriptedCloud {
    pub(crate) all: Inventory,
    pub(crate) answers: Seq<ScriptedAnswer>,
    pub(crate) next: usize,
}

impl Drop for ScriptedCloud {
    fn drop(self) {
        let ScriptedCloud {
            all: _,
            answers: _,
            next: _,
        } = self;
    }
}

impl ScriptedCloud {
    /// An empty cloud with these quotas, whose calls follow these answers, and work once they are used up.
    pub fn new(alloc: Global, quotas: Seq<KindQuota>, answers: Seq<ScriptedAnswer>) -> ScriptedCloud
        ensures held { result.all.held.all ≡ [] }
        ensures quotas { result.all.quotas ≡ quotas }
        ensures trace { result.all.trace ≡ [] }
        ensures faults { result.all.faults ≡ 0 }
        ensures answers { result.answers ≡ answers }
        ensures next { result.next ≡ 0 }
    {
        ScriptedCloud {
            all: Inventory::new(alloc, quotas),
            answers,
            next: 0,
        }
    }
}
