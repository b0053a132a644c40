//! The script that is generated for a count of resources: one stack, created, taken to a second body and back,
//! and deleted. Its text is written piece by piece; what it is, `script_of` says, with JSON as data. Nothing
//! here reads a script or runs one.
#![tactic(auto)]

mod body;
pub mod laws;
mod names;
mod resource;
mod script;
#[cfg(test)]
mod tests;

pub use script::generate;
