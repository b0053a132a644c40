//! A keeper for tests, whose calls follow a list that is handed in. It keeps nothing, meets the keeper's
//! trait, and tells neither what it reads as nor what a crash leaves: so it may fail, be foreign, or read
//! another state wherever the list says so.
#![tactic(auto)]

mod keeper;
mod kept_answer;
mod scripted_keeper;

pub use kept_answer::KeptAnswer;
pub use scripted_keeper::ScriptedKeeper;
