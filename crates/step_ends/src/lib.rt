//! How an engine's work at a row ends: by a release, since nobody needs it any more, by a failure, with
//! the rollback that may follow, and by what a provider answers. Each function answers the changes and
//! entries of one case of `Turn` in `step_relation`. None of them changes the state, asks a provider or
//! writes.
#![tactic(auto)]

ghost use Rattle.step_ends.specs.Lost.{LostAnswerIsAStep};

mod again;
mod ask;
mod breaking;
mod calls;
mod failing;
mod falling;
mod overruns;
mod poll;
mod rolling;
mod sparing;

pub use ask::{asked, refused_creates};
pub use breaking::broken;
pub use overruns::{begin_overrun, finish_overrun, takeover_overrun};
pub use poll::polled;
pub use rolling::rolled_behind;

/// A poll's answer of unknown size that is told alone, for want of memory, is a step.
pub fn a_lost_answer_is_a_step()
    ensures { LostAnswerIsAStep }
{}
