//! Changes of the live engines: one is stopped, one is enlisted, or all are followed by new ones;
//! and the take-over of a stopped engine's job. Each function answers the changes and entries of one
//! case of `Step` in `step_relation`. None of them changes the state, asks a provider or writes.
#![tactic(auto)]

mod enlisting;
mod relaying;
mod restarting;
mod stopping;
mod taking_over;

pub use enlisting::enlist;
pub use restarting::restart;
pub use step_ends::{asked, begin_overrun, broken, polled, refused_creates};
pub use stopping::stop;
pub use taking_over::takeover;
