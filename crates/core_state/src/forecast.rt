//! What an update would do with the resources of a stack.

use heat_plan::{Policy, ResName, RowNo};
use heat_value::{Path, Seq, Text};

/// What an update would do with a resource of its plan: leave it, change it in place, put another in its
/// place, create it, do one of the first three by what comes of others, or fail at it with this fault at
/// this place of its properties.
#[derive(Debug)]
pub enum Fore {
    Keep,
    InPlace,
    Replace,
    Create,
    Unsure,
    Fault(Text, Path),
}

impl Drop for Fore {
    fn drop(self) {
        match self {
            Fore::Keep => {}
            Fore::InPlace => {}
            Fore::Replace => {}
            Fore::Create => {}
            Fore::Unsure => {}
            Fore::Fault(_, _) => {}
        }
    }
}

/// A resource of the plan, and what an update would do with it.
#[derive(Debug, Drop)]
pub struct Foretold {
    pub name: ResName,
    pub fore: Fore,
}

/// A row of a name that the plan doesn't have: an update removes its resource, or releases it where the
/// row's policy is to retain it.
#[derive(Debug, Drop)]
pub struct Going {
    pub name: ResName,
    pub row: RowNo,
    pub policy: Policy,
}

/// What an update would do: with each resource of its plan, in the plan's order, and with the rows of
/// other names, by rising number.
#[derive(Debug, Drop)]
pub struct Forecast {
    pub items: Seq<Foretold>,
    pub gone: Seq<Going>,
}
