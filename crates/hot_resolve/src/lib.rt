//! The properties that an item of a plan gets, from the facts of what it needs.
#![tactic(auto)]

mod resolving;

pub use resolving::{Resolution, resolve};
