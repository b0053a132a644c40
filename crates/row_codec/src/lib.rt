//! The bytes of lists of changes, as a journal's records hold them: read, written, and measured. Nothing here
//! knows of a disk, or of whether a change applies. It answers to `specs/Changes.antt`.
#![tactic(auto)]

mod acts;
mod brought;
mod change_puts;
mod change_reads;
mod graphs;
mod input_lists;
mod inputs;
mod jobs;
mod laws;
mod letters;
mod nexts;
mod node_lists;
mod nodes;
mod numbers;
mod of;
mod pasts;
mod payloads;
mod points;
mod row_puts;
mod row_reads;
mod shared_plans;
mod stacks;
mod stages;
mod statuses;
mod tokens;

pub use brought::Brought;
pub use laws::{no_prefix, one_reading, read_back};
pub use payloads::{fill, read, size, write};
pub use plan_codec::Sheet;
