//! What a change of properties asks for. A property that stands in one of two maps alone differs in them.
ghost use Rattle.std.specs.Prelude.{◌≡◌, ◌≢◌, ◌↔◌, ℕ, List, IsTrue, IfSome, IsNone, Contains, None};
ghost use Rattle.heat_value.specs.Data.{lookup};
ghost use Rattle.type_catalog.specs.Changes.{ChangeOf, Differs};

use crate::effect::Effect;
use heat_plan::Properties;
use heat_value::{Equals, Props, Text};

/// What the change from the old properties to the new ones asks for, where `softs` change in place.
pub fn change_of(softs: &[Text], old: &Properties, new: &Properties) -> Effect
    ensures { ChangeOf softs.now old.now new.now result }
{
    if old.equals(new) {
        return Effect::Same;
    }
    if let Some(_) = first_hard(softs, old.as_props(), new.as_props()) {
        return Effect::Replace;
    }
    match first_hard(softs, new.as_props(), old.as_props()) {
        Some(_) => Effect::Replace,
        None => Effect::InPlace,
    }
}

// The first property of a map that differs in the other and doesn't change in place.
fn first_hard<'a>(softs: &[Text], one: &'a Props, other: &Props) -> Option<&'a Text>
    ensures some { IfSome result (λ key. Differs one.now other.now key.now × (¬ Contains softs.now key.now)) }
    ensures none { IsNone result → (key : List ℕ)
        → lookup key one.now ≢ None → Differs one.now other.now key → Contains softs.now key }
{
    for member in one.as_slice() {
        if differs(one, other, &member.key) && !is_soft(softs, &member.key) {
            return Some(&member.key);
        }
    }
    None
}

// Whether a property differs in two maps.
fn differs(one: &Props, other: &Props, key: &Text) -> bool
    ensures { IsTrue result ↔ Differs one.now other.now key.now }
{
    match (one.get(key), other.get(key)) {
        (Some(mine), Some(its)) => !mine.equals(its),
        (None, None) => false,
        (Some(_), None) | (None, Some(_)) => true,
    }
}

// Whether a property is one of those that change in place.
fn is_soft(softs: &[Text], key: &Text) -> bool
    ensures { IsTrue result ↔ Contains softs.now key.now }
{
    softs.contains(key)
}
