//! The order of a plan's items.
ghost use Rattle.std.specs.Prelude.{◌↔◌, IsTrue};
ghost use Rattle.heat_plan.specs.Order.{Rising};
ghost use Rattle.heat_plan.specs.Plans.{names_of};

use crate::Item;
use std::cmp::Ordering;

/// Whether the items come in byte order of their names, each name once.
pub fn are_in_order(items: &[Item]) -> bool
    ensures { IsTrue result ↔ Rising (names_of items.now) }
{
    for i in 1..items.len() {
        if items[i - 1].name.cmp(&items[i].name) != Ordering::Less {
            return false;
        }
    }
    true
}
