//! A resource as the simulated cloud holds it.
use provider::Alive;

/// An alive resource, whether it is leaving, and how many polls still answer NotYet.
#[derive(Debug, Drop)]
pub struct Held {
    pub what: Alive,
    pub leaving: bool,
    pub left: u8,
}
