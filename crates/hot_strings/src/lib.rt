//! The text functions of templates: join, split, replace and digest, each a relation between whole
//! texts. A result is a value of at most `MAX_SIZE` bytes of compact JSON, and nothing much longer is
//! ever built. No call changes its arguments.
#![tactic(auto)]

mod cutting;
mod digesting;
mod draft;
mod fault;
mod fitting;
mod index;
mod joining;
mod keys;
mod listing;
mod pieces;
mod replacing;
mod size;
mod splitting;
mod whole;

pub use digesting::{digest, is_digest_name};
pub use fault::StringFault;
pub use fitting::{fits, map_fits, value_size};
pub use index::KeyIndex;
pub use joining::join;
pub use keys::are_distinct;
pub use replacing::{replace, replace_within};
pub use size::MAX_SIZE;
pub use splitting::split;
