//! What an item of a plan asks for, among the tokens that calls name.
ghost use Rattle.std.specs.Prelude.{◌↔◌, IsTrue, IfOk};
ghost use Rattle.eval_words.specs.Resolve.{resolve};
ghost use Rattle.headline_reader.specs.Items.{IsAs, IsOfItem, IsSame, IsOnly, HasOne, HasResolved, HasItem};
ghost use Rattle.headline_reader.specs.Items.{HasName, IsPlanned};

use crate::certain::{may_live, sole};
use crate::living::Living;
use crate::needed::known_of;
use crate::possible::Possible;
use heat_plan::{Item, KnownFacts, Plan, Properties, ResName};
use heat_value::Equals;
use hot_resolve::{Resolution, resolve};
use std::alloc::{AllocError, Global};

/// Whether what the item needs is there, and its one resource, with what it resolves to by those facts.
#[tactic(auto, unfolding(crate::specs::Items::HasItem))]
pub(crate) fn has_item(
    alloc: Global,
    plan: &Plan,
    all: &[Possible],
    item: &Item,
) -> Result<bool, AllocError>
    ensures { IfOk result (λ b. IsTrue b ↔ HasItem plan.now all.now item.now) }
{
    match known_of(alloc, all, item.needs.as_slice())? {
        Some(known) => has_resolved(alloc, plan, all, item, known.as_slice()),
        None => Ok(false),
    }
}

// Whether its one resource is there, with what it resolves to by these facts.
fn has_resolved(
    alloc: Global,
    plan: &Plan,
    all: &[Possible],
    item: &Item,
    known: &[KnownFacts],
) -> Result<bool, AllocError>
    ensures { IfOk result (λ b.
        IsTrue b ↔ HasResolved all.now item.now (resolve plan.now item.now known.now)) }
{
    match resolve(alloc, plan, item, known)? {
        Resolution::Props(props) => Ok(has_one(all, item, &props)),
        Resolution::Fault(_, _) => Ok(false),
    }
}

// Whether one token, and no other of its name, is the item's resource.
#[tactic(auto, unfolding(crate::specs::Items::HasOne))]
fn has_one(all: &[Possible], item: &Item, props: &Properties) -> bool
    ensures { IsTrue result ↔ HasOne all.now item.now props.now }
{
    all.iter().any(|it| is_only_of_item(all, it, item, props))
}

// Whether this token is that resource, and no other may be.
fn is_only_of_item(all: &[Possible], it: &Possible, item: &Item, props: &Properties) -> bool
    ensures { IsTrue result ↔ (IsOfItem item.now props.now it.now × IsOnly all.now it.now) }
{
    is_of_item(it, item, props) && is_only(all, it)
}

// Whether it is there as the item asks, with these properties.
fn is_of_item(it: &Possible, item: &Item, props: &Properties) -> bool
    ensures { IsTrue result ↔ IsOfItem item.now props.now it.now }
{
    match sole(it) {
        Some(living) => it.token.name == item.name && is_as(living, item, props),
        None => false,
    }
}

// Whether what is alive is as the item asks: its kind and properties, ready, not leaving.
fn is_as(living: &Living, item: &Item, props: &Properties) -> bool
    ensures { IsTrue result ↔ IsAs item.now props.now living.now }
{
    living.kind == item.kind.name
        && living.props.equals(props)
        && living.facts.is_some()
        && !living.leaving
}

// Whether no other of its name may be alive.
fn is_only(all: &[Possible], it: &Possible) -> bool
    ensures { IsTrue result ↔ IsOnly all.now it.now }
{
    all.iter().all(|other| is_same(it, other))
}

// Whether the other can't be a second one: not alive, of another name, or of the same row.
fn is_same(it: &Possible, other: &Possible) -> bool
    ensures { IsTrue result ↔ IsSame it.now other.now }
{
    !may_live(other) || other.token.name != it.token.name || other.token.row == it.token.row
}

/// Whether it is an item's, where it may be alive.
#[tactic(auto, unfolding(crate::specs::Items::IsPlanned))]
pub(crate) fn is_planned(items: &[Item], it: &Possible) -> bool
    ensures { IsTrue result ↔ IsPlanned items.now it.now }
{
    !may_live(it) || has_name(items, &it.token.name)
}

// Whether the plan has an item of this name.
fn has_name(items: &[Item], name: &ResName) -> bool
    ensures { IsTrue result ↔ HasName items.now name.now }
{
    items.iter().any(|item| item.name == *name)
}
