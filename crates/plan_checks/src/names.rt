//! Names among those of items that come in byte order.
ghost use Rattle.std.specs.Prelude.{◌↔◌, IsTrue, All, Contains};
ghost use Rattle.heat_plan.specs.Order.{Rising};
ghost use Rattle.heat_plan.specs.Plans.{names_of};
ghost use Rattle.heat_plan.specs.declared.item.Item.{Item as item_type};

use heat_plan::{Item, ResName};

/// Whether each need of each item is an item's name.
pub(crate) fn are_met(items: &[Item]) -> bool
    requires { Rising (names_of items.now) }
    ensures { IsTrue result ↔ All (λ (i : item_type). All (Contains (names_of items.now)) i.needs) items.now }
{
    for item in items {
        if !are_named(items, item.needs.as_slice()) {
            return false;
        }
    }
    true
}

/// Whether none of the names is an item's.
pub(crate) fn are_apart(items: &[Item], names: &[ResName]) -> bool
    requires { Rising (names_of items.now) }
    ensures { IsTrue result ↔ All (λ name. ¬ Contains (names_of items.now) name) names.now }
{
    for name in names {
        if is_named(items, name) {
            return false;
        }
    }
    true
}

// Whether each of the names is an item's.
fn are_named(items: &[Item], names: &[ResName]) -> bool
    requires { Rising (names_of items.now) }
    ensures { IsTrue result ↔ All (Contains (names_of items.now)) names.now }
{
    for name in names {
        if !is_named(items, name) {
            return false;
        }
    }
    true
}

// Whether an item has the name.
fn is_named(items: &[Item], name: &ResName) -> bool
    requires { Rising (names_of items.now) }
    ensures { IsTrue result ↔ Contains (names_of items.now) name.now }
{
    match items.binary_search_by(|item| item.name.cmp(name)) {
        Ok(_) => true,
        Err(_) => false,
    }
}
