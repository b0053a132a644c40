//! A keeper of records over a journal of any disk.
#![tactic(auto)]

mod journaled;
mod keeper;
mod looking;
mod opening;
mod reading;

pub use journaled::Journaled;
