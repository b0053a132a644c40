//! A small cloud for tests, whose answers follow a list that is handed in. It meets the provider's trait:
//! where the next of the list isn't allowed, it gives the answer that is.
#![tactic(auto)]

mod asks;
mod cloud;
mod scripted_answer;
mod scripted_cloud;

pub use asks::{change, look, make, send, wait};
pub use scripted_answer::ScriptedAnswer;
pub use scripted_cloud::ScriptedCloud;
