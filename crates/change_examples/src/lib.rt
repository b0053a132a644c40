//! The bytes of changes, worked out by hand from the page on formats: each of the fifteen kinds is read and
//! written so, what is off the grammar is refused, what becomes of hostile images, and a snapshot's bytes. There
//! are tests alone here, of `row_codec`, `plan_codec`, `state_images` and `snapshot_codec`; nothing stands on
//! this crate.
#![tactic(auto)]

#[cfg(test)]
mod digits;
#[cfg(test)]
mod images;
#[cfg(test)]
mod kinds;
#[cfg(test)]
mod refusals;
#[cfg(test)]
mod snapshots;
#[cfg(test)]
mod spelled_changes;
