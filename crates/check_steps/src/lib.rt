//! An engine's steps that ask nobody: the taking of a letter, the begin of a job at an update node,
//! and the finish of a job; and the look at a step and what is prepared for it. Each step answers the
//! changes and entries of a case of `Turn` in step_relation. None changes the state, asks the provider
//! or writes.
#![tactic(auto)]

mod begin_finding;
mod begin_found;
mod begin_parts;
mod beginning;
mod faulting;
mod fence;
mod finish_found;
mod finishing;
mod leaving;
mod looking;
mod looks;
mod making;
mod onward_jobs;
mod passing;
mod prepared;
mod preparing;
mod replacing;
mod taking;
mod with_props;

pub use beginning::begin;
pub use fence::is_overtaken;
pub use finishing::finish;
pub use looking::look;
pub use looks::{BeginWork, Look, Work};
pub use prepared::Prepared;
pub use preparing::{prepare, prepare_now};
pub use taking::take;
