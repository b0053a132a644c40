//! The end of a stopped engine's job that has work: its row is free again, and a letter goes to its
//! node.
ghost use Rattle.std.specs.Prelude.{◌≡◌, ◌⊎◌, ◌∷◌, [], IfOk, IfErr, option_map};
ghost use Rattle.heat_plan.specs.declared.refusal.Refusal.TheVariants.{Memory, Worn};
ghost use Rattle.step_relation.specs.Turns.{IsWorn};
ghost use Rattle.takeover_steps.specs.Relays.{relayed_changes, relayed_entries};

use core_state::{Job, Made, Row, Stack, State};
use heat_plan::{EngineNo, Refusal};
use std::alloc::Global;
use step_parts::{
    has_room, letters_to, made_within, may_all_rise, released_changes, released_entries,
};

/// The job of a stopped engine ends with a letter to its node; refuses `Worn` where the letter's
/// number or the row's key would be 2^62.
pub fn relay(
    alloc: Global,
    s: &State,
    e: EngineNo,
    job: &Job,
    stack: &Stack,
    row: Option<&Row>,
) -> Result<Made, Refusal>
    ensures changes { IfOk result (λ m. m.changes ≡
        relayed_changes s.now.state job.now stack.now (option_map (λ r. r.now) row.entry)) }
    ensures entries { IfOk result (λ m. m.entries ≡
        relayed_entries s.now.state e job.now stack.now (option_map (λ r. r.now) row.entry)) }
    ensures lasts { IfOk result (λ _. ¬ IsWorn
        (relayed_changes s.now.state job.now stack.now (option_map (λ r. r.now) row.entry))) }
    ensures cause { IfErr result (λ r. (r ≡ Memory) ⊎ ((r ≡ Worn) × IsWorn
        (relayed_changes s.now.state job.now stack.now (option_map (λ r. r.now) row.entry)))) }
{
    let next = s.next().letter;
    if !has_room(next, 1) {
        return Err(Refusal::Worn);
    }
    if !may_all_rise(row) {
        return Err(Refusal::Worn);
    }
    let letters = letters_to(alloc, stack, next, &[job.letter.node])?;
    let changes = released_changes(alloc, s, job.engine, row, letters.as_slice())?;
    let entries = released_entries(alloc, e, job.engine, row, letters.as_slice())?;
    made_within(alloc, changes, entries)
}
