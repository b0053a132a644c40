//! Which engines are live.
ghost use Rattle.std.specs.Prelude.{◌↔◌, IsTrue, Contains};
ghost use Rattle.std.specs.Bool.{OnTrue, OnFalse};
ghost use Rattle.step_relation.specs.Freshness.{IsStopped};

use core_state::State;
use heat_plan::EngineNo;

/// Whether an engine is live.
pub fn is_live(s: &State, e: EngineNo) -> bool
    ensures { IsTrue result ↔ Contains s.now.state.live e }
{
    s.live().contains(&e)
}

/// Whether an engine's number was drawn, and it isn't live.
pub fn is_stopped(s: &State, e: EngineNo) -> bool
    ensures yes { OnTrue result (IsStopped s.now.state e) }
    ensures no_ { OnFalse result (¬ IsStopped s.now.state e) }
{
    e.get() < s.next().engine.get() && !is_live(s, e)
}
