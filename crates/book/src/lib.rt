//! The whole engine: its state, the history of what it did, the keeper of its records, and the cloud that
//! it asks. Each call is one step of the history or a refusal that changes nothing. The type keeps that
//! the history is that of a run from an image that was admitted, that the cloud is in a state which that
//! history allows, and that the keeper stands for the state.
#![tactic(auto)]

mod admitting;
mod answers;
mod ask;
mod beginning;
mod book;
mod called;
mod commanding;
mod committing;
mod compacting;
mod engines;
mod halting;
mod history;
mod looking;
mod making;
mod opening;
mod poll;
mod requests;
mod restarting;
mod turning;

pub use book::Book;
pub use check_steps::{BeginWork, Look, Prepared, Work, prepare};
pub use commanding::StackCommand;
pub use compacting::Uncompacted;
pub use halting::Halt;
pub use opening::Opened;
pub use opening_check::Finding;
pub use restarting::Unrestarted;
pub use turning::Turn;
