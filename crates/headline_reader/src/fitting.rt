//! Whether what is alive in a stack is what a plan asks for.
ghost use Rattle.std.specs.Prelude.{◌≡◌, ◌↔◌, ℕ, Bool, IsTrue, IfOk, All};
ghost use Rattle.heat_plan.specs.Plans.{IsPlan};
ghost use Rattle.heat_plan.specs.declared.token.Token.{Token};
ghost use Rattle.step_relation.specs.Opening.{empty_opening};
ghost use Rattle.step_relation.specs.Fits.{Fits};
ghost use Rattle.step_relation.specs.Tokens.{IsCertain};
ghost use Rattle.headline_reader.specs.Items.{HasItem, IsPlanned, Finds};

use crate::certain::is_certain;
use crate::items::{has_item, is_planned};
use crate::possible::{Possible, called};
use core_state::Entry;
use heat_plan::{Item, Plan, StackName};
use std::alloc::{AllocError, Global};

/// True exactly where it fits. A token can be alive only where a call of the history names it, so these
/// tokens alone are looked at.
pub fn fits(
    alloc: Global,
    entries: &[Entry],
    stack: &StackName,
    plan: &Plan,
) -> Result<bool, AllocError>
    ensures { (engines : ℕ) (leaving : Token → Bool) → IfOk result (λ b.
        IsTrue b ↔ Fits (empty_opening engines leaving) entries.now stack.now plan.now) }
{
    let all = called(alloc, entries, stack)?;
    finds(alloc, all.as_slice(), plan)
}

// Whether the tokens are the plan's.
fn finds(alloc: Global, all: &[Possible], plan: &Plan) -> Result<bool, AllocError>
    ensures found { IfOk result (λ b. IsTrue b ↔ Finds all.now plan.now) }
    ensures plan { IsPlan plan.now.items plan.now.absent }
{
    let items = plan.items();
    if are_certain(all) && are_planned(all, items) {
        have_all(alloc, plan, all, items)
    } else {
        Ok(false)
    }
}

// Whether each called token has one possible state.
fn are_certain(all: &[Possible]) -> bool
    ensures { IsTrue result ↔ All (λ p. IsCertain p.states) all.now }
{
    all.iter().all(|it| is_certain(it))
}

// Whether each item's needs are there, and its one resource.
fn have_all(
    alloc: Global,
    plan: &Plan,
    all: &[Possible],
    items: &[Item],
) -> Result<bool, AllocError>
    ensures { IfOk result (λ b. IsTrue b ↔ All (HasItem plan.now all.now) items.now) }
{
    for item in items {
        if !has_item(alloc, plan, all, item)? {
            return Ok(false);
        }
    }
    Ok(true)
}

// Whether each token that may be alive has the name of an item.
fn are_planned(all: &[Possible], items: &[Item]) -> bool
    ensures { IsTrue result ↔ All (IsPlanned items.now) all.now }
{
    all.iter().all(|it| is_planned(items, it))
}
