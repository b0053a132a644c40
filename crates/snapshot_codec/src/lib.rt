//! The bytes of a state's snapshot, written straight off the state: a record of a journal that begins anew is
//! written without memory, so no change of the snapshot is made for it. Nothing here knows of a disk, or decides
//! what a snapshot is. It answers to `spelled` of row_codec and `snapshot` of state_images.
#![tactic(auto)]

mod counts;
mod payload;
mod puts;

pub use payload::{fill, size};
