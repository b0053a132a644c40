//! What the states of one token say.
ghost use Rattle.std.specs.Prelude.{◌≡◌, ◌↔◌, IsTrue, option_map};
ghost use Rattle.step_relation.specs.Tokens.{IsCertain, MayLive};
ghost use Rattle.headline_reader.specs.Items.{ready_facts, sole};

use crate::living::Living;
use crate::possible::Possible;
use heat_plan::Facts;

/// Whether there is one state.
#[tactic(auto, using(crate::proofs::OneState::certain))]
pub(crate) fn is_certain(possible: &Possible) -> bool
    ensures { IsTrue result ↔ IsCertain possible.now.states }
{
    possible.states.len() == 1
}

/// Whether one of the states is alive.
pub(crate) fn may_live(possible: &Possible) -> bool
    ensures { IsTrue result ↔ MayLive possible.now.states }
{
    possible
        .states
        .as_slice()
        .iter()
        .any(|state| state.is_some())
}

/// The resource, where the token is certainly alive.
pub(crate) fn sole(possible: &Possible) -> Option<&Living>
    ensures { option_map (λ l. l.now) result ≡ sole possible.now.states }
{
    match possible.states.as_slice() {
        [Some(it)] => Some(it),
        _ => None,
    }
}

/// The resource's facts, where the token is certainly alive and ready.
pub(crate) fn ready_facts(possible: &Possible) -> Option<&Facts>
    ensures { option_map (λ f. f.now) result ≡ ready_facts possible.now.states }
{
    match sole(possible) {
        Some(it) => it.facts.as_ref(),
        None => None,
    }
}
