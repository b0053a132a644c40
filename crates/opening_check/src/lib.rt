//! The comparison of an image with what the cloud lists, at an opening: rows by rising number, then the
//! list in its order. It answers to specs/Findings.antt.
#![tactic(auto)]

mod comparison;
mod finding;
mod index;
mod listed;
mod rows;
mod strangers;

pub use comparison::compare;
pub use finding::Finding;
