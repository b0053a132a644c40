//! The items of the resources that are wanted, and the names of the others.
ghost use Rattle.std.specs.Prelude.{◌≡◌, ◌≤◌, ◌∷◌, [], true, All, IfOk, Some, length};
ghost use Rattle.heat_plan.specs.Names.{IsResName};
ghost use Rattle.heat_plan.specs.Order.{Rising};
ghost use Rattle.heat_value.specs.Data.{depth, fields as fields_data};
ghost use Rattle.hot_admit.specs.Basis.{basis_data, kind_at};
ghost use Rattle.hot_admit.specs.Items.{policy_of as the_policy_of, item_with as the_item_with};
ghost use Rattle.hot_admit.specs.Items.{names_marked, items_marked, IsFit, AreFit};
ghost use Rattle.hot_admit.specs.Resources.{resource_data, resources_data, names_of};

use crate::needs::needs_of;
use crate::{Basis, Wanted};
use heat_plan::{Item, Policy, Properties, ResName};
use heat_value::{Props, Seq, Text, TryCopy};
use hot_forms::is_among;
use hot_tree::Res;
use std::alloc::{AllocError, Global};
use type_catalog::KindDef;

/// The items of the resources that are wanted, in their order.
pub fn items_of(alloc: Global, basis: &Basis, wanted: &[Wanted]) -> Result<Seq<Item>, AllocError>
    requires size { length wanted.now ≡ length basis.now.resources.now }
    requires fit { AreFit (basis_data basis.now) (basis_data basis.now).resources }
    ensures { IfOk result (λ is. is ≡ items_marked (basis_data basis.now)
        (names_marked true (basis_data basis.now).resources wanted.now)
        (basis_data basis.now).resources wanted.now) }
{
    let names = names_where(alloc, true, basis.resources, wanted)?;
    let mut items = Seq::with_capacity(alloc, names.len())?;
    for (place, res) in basis.resources.iter().enumerate() {
        if wanted[place].wanted {
            items.push(item_of(alloc, basis, res, names.as_slice())?)?;
        }
    }
    Ok(items)
}

/// The names of the resources that are wanted, or of those that aren't, in their order.
pub fn names_where(
    alloc: Global,
    are_wanted: bool,
    resources: &[Res],
    wanted: &[Wanted],
) -> Result<Seq<ResName>, AllocError>
    requires size { length wanted.now ≡ length resources.now }
    requires names { All IsResName (names_of (resources_data resources.now)) }
    ensures { IfOk result (λ ns. ns
        ≡ names_marked are_wanted (resources_data resources.now) wanted.now) }
{
    let mut names = Seq::new(alloc);
    for (place, res) in resources.iter().enumerate() {
        if wanted[place].wanted == are_wanted {
            names.push(name_of(alloc, &res.name)?)?;
        }
    }
    Ok(names)
}

// A text that is a name, as one.
fn name_of(alloc: Global, text: &Text) -> Result<ResName, AllocError>
    requires { IsResName text.now }
    ensures { IfOk result (λ n. n ≡ text.now) }
{
    match ResName::read(alloc, text.as_str().as_bytes())? {
        Some(name) => Ok(name),
        None => unreachable!(),
    }
}

// The item of a resource among those of these names.
fn item_of(alloc: Global, basis: &Basis, res: &Res, names: &[ResName]) -> Result<Item, AllocError>
    requires fit { IsFit (basis_data basis.now) (resource_data res.now) }
    requires order { Rising names.now }
    ensures { IfOk result (λ i. i ∷ [] ≡ the_item_with names.now (resource_data res.now)
        (kind_at (basis_data basis.now) (resource_data res.now))) }
{
    match basis.kind_at(res) {
        Some(kind) => item_with(alloc, res, kind, names),
        None => unreachable!(),
    }
}

// What the plan asks for in the place of a resource of this kind.
fn item_with(
    alloc: Global,
    res: &Res,
    kind: &KindDef,
    names: &[ResName],
) -> Result<Item, AllocError>
    requires name { IsResName res.now.name }
    requires depth { depth (fields_data res.now.props) ≤ 64 }
    requires order { Rising names.now }
    ensures { IfOk result (λ i. i ∷ [] ≡ the_item_with names.now (resource_data res.now)
        (Some kind.now)) }
{
    Ok(Item {
        name: name_of(alloc, &res.name)?,
        kind: kind.kind()?,
        props: properties_of(&res.props)?,
        needs: needs_of(alloc, res, names)?,
        policy: policy_of(res.policy.as_str()),
    })
}

// A copy of properties, which lie deep inside what nests at most 64 deep.
fn properties_of(props: &Props) -> Result<Properties, AllocError>
    requires { depth (fields_data props.now) ≤ 64 }
    ensures { IfOk result (λ p. p ≡ props.now) }
{
    match Properties::from_props(props.copy()?) {
        Some(props) => Ok(props),
        None => unreachable!(),
    }
}

// To retain where the template says so, in either spelling; else to delete.
fn policy_of(policy: &str) -> Policy
    ensures { result ≡ the_policy_of policy.now }
{
    if is_among(&["Retain", "retain"], policy) {
        Policy::Retain
    } else {
        Policy::Delete
    }
}
