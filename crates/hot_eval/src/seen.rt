//! Values that were seen, by references in the order of values.
ghost use Rattle.std.specs.Prelude.{◌≡◌, not, IfOk};
ghost use Rattle.heat_value.specs.Data.{Nodes, node_last};
ghost use Rattle.heat_value.specs.Meaning.{data_of, nodes_of};
ghost use Rattle.eval_words.specs.Sameness.{has as the_has};
ghost use Rattle.hot_eval.specs.Seen.{HoldsAll};

use heat_value::Value;
use std::alloc::{AllocError, Global};
use std::cmp::Ordering;
use std::collections::BTreeSet;
use std::marker::Model;

/// A value by a reference, which contracts see as the value's content.
#[derive(Drop)]
pub struct Ordered<'a> {
    value: &'a Value,
}

impl<'a> Model for Ordered<'a> {
    ghost use Rattle.heat_value.specs.Code.{data_code};
    ghost use Rattle.heat_value.specs.Data.{Data};
    ghost use Rattle.heat_value.specs.Meaning.{data_of};

    ghost Value = { Data };

    ghost coded = { data_code };

    ghost view = { λ o. data_of o.value.now };
}

impl<'a> PartialEq for Ordered<'a> {
    ghost use Rattle.std.specs.Cmp.{eq_by_cmp_equiv, partial_equiv_from_equiv};
    ghost use Rattle.std.specs.Ordering.{eq_by_cmp};
    ghost use Rattle.heat_value.specs.Order.{value_cmp};
    ghost use Rattle.heat_value.specs.OrderLaws.{value_cmp_total};

    ghost eq = { eq_by_cmp value_cmp };

    ghost laws = { partial_equiv_from_equiv (eq_by_cmp_equiv value_cmp_total) };

    fn eq(&self, other: &Ordered) -> bool {
        self.value.order(other.value).is_eq()
    }
}

impl<'a> Eq for Ordered<'a> {
    ghost use Rattle.std.specs.Cmp.{eq_by_cmp_equiv};
    ghost use Rattle.heat_value.specs.OrderLaws.{value_cmp_total};

    ghost laws = { eq_by_cmp_equiv value_cmp_total };
}

impl<'a> PartialOrd for Ordered<'a> {
    ghost use Rattle.std.specs.Cmp.{partial_order_from_total};
    ghost use Rattle.std.specs.Ordering.{as_partial_cmp};
    ghost use Rattle.heat_value.specs.Order.{value_cmp};
    ghost use Rattle.heat_value.specs.OrderLaws.{value_cmp_total};

    ghost partial_cmp = { as_partial_cmp value_cmp };

    ghost laws = { partial_order_from_total value_cmp_total };

    fn partial_cmp(&self, other: &Ordered) -> Option<Ordering> {
        Some(self.value.order(other.value))
    }
}

impl<'a> Ord for Ordered<'a> {
    ghost use Rattle.std.specs.Prelude.{refl};
    ghost use Rattle.heat_value.specs.Order.{value_cmp};
    ghost use Rattle.heat_value.specs.OrderLaws.{value_cmp_total};

    ghost cmp = { value_cmp };

    ghost total = { value_cmp_total };

    ghost matches_partial_cmp = { λ x y. refl };

    ghost matches_eq = { λ x y. refl };

    fn cmp(&self, other: &Ordered) -> Ordering {
        self.value.order(other.value)
    }
}

/// Those of some values.
pub fn seen_of(alloc: Global, values: &[Value]) -> Result<BTreeSet<Ordered>, AllocError>
    ensures { IfOk result (λ s. HoldsAll s (nodes_of values.now)) }
{
    let mut seen = BTreeSet::new(alloc);
    for value in values {
        see(value, &mut seen)?;
    }
    Ok(seen)
}

/// Sees a value; whether it wasn't seen before.
pub fn see<'a>(value: &'a Value, seen: &mut BTreeSet<Ordered<'a>>) -> Result<bool, AllocError>
    ensures { (ns : Nodes) → HoldsAll seen.old ns → IfOk result (λ new. (new ≡ not (the_has (data_of value.now) ns))
        × HoldsAll seen.new (node_last ns (data_of value.now))) }
{
    Ok(seen.insert(Ordered { value })?)
}

/// Whether the value was seen.
pub fn was_seen<'a>(value: &'a Value, seen: &BTreeSet<Ordered<'a>>) -> bool
    ensures { (ns : Nodes) → HoldsAll seen.now ns → result ≡ the_has (data_of value.now) ns }
{
    seen.contains(&Ordered { value })
}
