//! What keeps the book's records, as the book sees it: a trait over states and their changes. What it is
//! opened with is a state; each step's changes are appended before they are made; and it says what a crash
//! at any moment may leave. Nothing here knows of bytes, of a cloud or of what a step is. Beside the trait
//! stands `Unkept`, which keeps nothing. It answers to specs/Shown.antt, Laws.antt and Calls.antt.
#![tactic(auto)]

mod keeper;
mod open_fault;
mod unkept;

pub use keeper::{KeepFailed, Keeper};
pub use open_fault::OpenFault;
pub use unkept::Unkept;
