//! The answers of a provider's calls. `Failed` may have had its effect; `Memory` had none.
use crate::Alive;
use heat_plan::Facts;
use heat_value::{Seq, Text};

/// The answer to a create, an update or a delete; an update and a delete never answer `Quota`.
#[derive(Clone, Copy, Debug, PartialEq, Eq)]
pub enum Answer {
    Begun,
    Quota,
    Failed,
    Memory,
}

/// The answer to a poll; `Broken` carries the provider's code.
#[derive(Debug, Drop)]
pub enum Poll {
    NotYet,
    Ready(Facts),
    Broken(Text),
    Failed,
    Memory,
}

/// The answer to the question whether a resource is gone.
#[derive(Clone, Copy, Debug, PartialEq, Eq)]
pub enum Gone {
    Gone,
    NotYet,
    Failed,
    Memory,
}

/// The answer to a listing.
#[derive(Debug, Drop)]
pub enum Listed {
    Got(Seq<Alive>),
    Failed,
    Memory,
}
