//! Who claims a row's number.

use heat_plan::{EngineNo, Equals, StackName};

/// Who claims it: a stack, or an engine.
#[derive(Debug, Drop)]
pub(crate) enum Claimant {
    Stack(StackName),
    Engine(EngineNo),
}

impl Equals for Claimant {
    fn equals(&self, other: &Claimant) -> bool {
        match (self, other) {
            (Claimant::Stack(mine), Claimant::Stack(its)) => mine.equals(its),
            (Claimant::Engine(mine), Claimant::Engine(its)) => *mine == *its,
            _ => false,
        }
    }
}

/// A row's number, and who claims it.
#[derive(Debug, Drop)]
pub(crate) struct Claim {
    pub(crate) no: u64,
    pub(crate) by: Claimant,
}
