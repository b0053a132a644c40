//! A01, A05 and A06: a resource's type, and its properties by that type.
ghost use Rattle.std.specs.Prelude.{◌≡◌, ◌++◌, ◌∷◌, [], ℕ, List, IfOk, length, map, option_map};
ghost use Rattle.std.specs.List.{list_any};
ghost use Rattle.heat_value.specs.Data.{Rises, keys_of};
ghost use Rattle.heat_value.specs.Meaning.{members_of};
ghost use Rattle.hot_admit.specs.Basis.{basis_data};
ghost use Rattle.hot_admit.specs.Kinds.{of_unknown_kind as the_of_unknown_kind};
ghost use Rattle.hot_admit.specs.Kinds.{with_unknown_property as the_with_unknown_property};
ghost use Rattle.hot_admit.specs.Kinds.{unknown_property as the_unknown_property};
ghost use Rattle.hot_admit.specs.Kinds.{first_unknown as the_first_unknown};
ghost use Rattle.hot_admit.specs.Kinds.{without_property as the_without_property, lacks as the_lacks};
ghost use Rattle.hot_admit.specs.Kinds.{missing_property as the_missing_property};
ghost use Rattle.hot_admit.specs.Resources.{resource_data};
ghost use Rattle.hot_forms.specs.Checks.{is_among};

use crate::Basis;
use crate::lookup::place_of;
use heat_value::{Member, Path, Props, Text};
use hot_catalog::{behind_key, behind_name, here_unless};
use hot_tree::Res;
use std::alloc::{AllocError, Global};
use type_catalog::{KindDef, PropDef};

/// A01: the type isn't in the catalogue.
pub fn of_unknown_kind(alloc: Global, basis: &Basis, res: &Res) -> Result<Option<Path>, AllocError>
    ensures { IfOk result (λ o. o
        ≡ the_of_unknown_kind (basis_data basis.now) (resource_data res.now)) }
{
    let stands = basis.kind_at(res).is_some();
    behind_name(alloc, "type", here_unless(alloc, stands))
}

/// A05: the first property that the kind hasn't.
pub fn with_unknown_property(
    alloc: Global,
    basis: &Basis,
    res: &Res,
) -> Result<Option<Path>, AllocError>
    ensures { IfOk result (λ o. o
        ≡ the_with_unknown_property (basis_data basis.now) (resource_data res.now)) }
{
    let unknown = unknown_property(alloc, res, basis.kind_at(res))?;
    behind_name(alloc, "properties", unknown)
}

// The place of the first property that the kind doesn't have.
fn unknown_property(
    alloc: Global,
    res: &Res,
    kind: Option<&KindDef>,
) -> Result<Option<Path>, AllocError>
    ensures { IfOk result (λ o. o
        ≡ the_unknown_property (resource_data res.now) (option_map (λ k. k.now) kind.entry)) }
{
    match kind {
        Some(kind) => first_unknown(alloc, kind, &res.props),
        None => Ok(None),
    }
}

// The first key in byte order that is no property of the kind.
fn first_unknown(alloc: Global, kind: &KindDef, given: &Props) -> Result<Option<Path>, AllocError>
    ensures { IfOk result (λ o. o ≡ the_first_unknown kind.now given.now) }
{
    let members = given.as_slice();
    let known = known_marks(alloc, members, kind.props.as_slice())?;
    for (place, member) in members.iter().enumerate() {
        if !known[place] {
            return behind_key(&member.key, here_unless(alloc, false));
        }
    }
    Ok(None)
}

// Of each of these whether its key is the name of a property.
fn known_marks(
    alloc: Global,
    members: &[Member],
    props: &[PropDef],
) -> Result<Vec<bool>, AllocError>
    requires { Rises (members_of members.now) }
    ensures { IfOk result (λ ms. ms.items
        ≡ map (is_among (map (λ p. p.name) props.now)) (keys_of (members_of members.now))) }
{
    let mut marks = vec![in alloc; false; members.len()]?;
    for prop in props {
        mark_known(members, &prop.name, &mut marks);
    }
    Ok(marks)
}

// Marks the member of a key, if there is one.
fn mark_known(members: &[Member], key: &Text, marks: &mut Vec<bool>)
    requires rising { Rises (members_of members.now) }
    requires size { length marks.old.items ≡ length members.now }
    ensures { (known : List (List ℕ))
        → marks.old.items ≡ map (is_among known) (keys_of (members_of members.now))
        → marks.new.items ≡ map (is_among (known ++ key.now ∷ [])) (keys_of (members_of members.now)) }
{
    match place_of(members, key) {
        Ok(place) => marks[place] = true,
        Err(_) => {}
    }
}

/// A06: a property that has to be there has no key.
pub fn without_property(alloc: Global, basis: &Basis, res: &Res) -> Result<Option<Path>, AllocError>
    ensures { IfOk result (λ o. o
        ≡ the_without_property (basis_data basis.now) (resource_data res.now)) }
{
    let missing = missing_property(alloc, res, basis.kind_at(res));
    behind_name(alloc, "properties", missing)
}

// That a property is missing which the kind requires.
fn missing_property(alloc: Global, res: &Res, kind: Option<&KindDef>) -> Option<Path>
    ensures { result ≡ the_missing_property (resource_data res.now) (option_map (λ k. k.now) kind.entry) }
{
    match kind {
        Some(kind) => here_unless(alloc, !lacks_any(&res.props, kind.props.as_slice())),
        None => None,
    }
}

// Whether one of these that has to be there has no key.
fn lacks_any(props: &Props, wanted: &[PropDef]) -> bool
    ensures { result ≡ list_any (the_lacks props.now) wanted.now }
{
    wanted
        .iter()
        .any(|prop| prop.required && props.get(&prop.name).is_none())
}
