//! One value that many threads share, handed out to one holder at a time by a ticket lock.
//! The value shows a list of entries and an origin. Whoever held it, there is one list, which only
//! grows, and one origin: the rule is `Kept` of specs/Rule, and what holds at the end is `Settled` of
//! specs/Closing. The lock knows nothing else of the value, and nothing is claimed of fairness,
//! progress or time.
#![tactic(auto)]

mod chronicle;
mod close;
mod pass;
mod queue;
mod rule;
mod shared;
mod slot;
mod split;
mod steps;
#[cfg(test)]
mod tests;
mod view;

pub use chronicle::Chronicle;
pub use pass::Pass;
pub use shared::Shared;
