//! States from changes, and changes from states, as a journal needs both: what lists of changes make of
//! nothing, whether that is tied up in itself as an image has to be, and the changes that make a state of
//! nothing. Nothing here reads bytes, keeps anything or decides a step. It answers to `specs/Replays.antt`,
//! `Ties.antt` and `Snapshots.antt`.
#![tactic(auto)]

mod aligned;
mod claim;
mod currents;
mod laws;
mod numbering;
mod owners;
mod records;
mod replaying;
mod single;
mod tied;
mod ties;
mod writing;

pub use laws::{
    changes_keep_made, made_states_are_formed, made_states_are_read, made_states_have_a_snapshot,
};
pub use replaying::{make, replay};
pub use tied::is_tied;
pub use writing::snapshot_of;
