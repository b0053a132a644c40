//! The cloud as the layers above see it: a trait with what it shows, its six calls and its laws. Nothing
//! here implements it or knows of a stack's state. What an answer makes of a token is one table, `after`.
#![tactic(auto)]

mod alive;
mod answers;
mod cloud;
mod laws;
mod traced;

pub use alive::Alive;
pub use answers::{Answer, Gone, Listed, Poll};
pub use cloud::Provider;
pub use laws::{calls_move_tokens, folds_keep_the_state, nothing_is_absent};
pub use traced::{Listing, Traced};
