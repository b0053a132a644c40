//! Whether what items need has a cycle, found by the search for an order in their graph.
ghost use Rattle.std.specs.Prelude.{◌≡◌, ◌↔◌, ◌<◌, ◌^◌, [], ◌∷◌, IsTrue, IfOk, OnOk, All, Contains, length};
ghost use Rattle.heat_plan.specs.Order.{Rising};
ghost use Rattle.heat_plan.specs.Plans.{HasNoCycle, names_of};
ghost use Rattle.heat_plan.specs.declared.item.Item.{Item as item_type};
ghost use Rattle.plan_checks.specs.Needs.{IsNamedAt, AddsNeeds, HasNeeds};

use dep_graph::{Graph, Order};
use heat_plan::{Item, ResName};
use std::alloc::{AllocError, Global};

/// Whether needs have no cycle.
pub(crate) fn have_no_cycle(alloc: Global, items: &[Item]) -> Result<bool, AllocError>
    requires rising { Rising (names_of items.now) }
    requires met { All (λ (i : item_type). All (Contains (names_of items.now)) i.needs) items.now }
    ensures { IfOk result (λ b. IsTrue b ↔ HasNoCycle items.now) }
{
    if items.len() > u32::MAX as usize {
        return Err(AllocError);
    }
    let graph = graph_of(alloc, items)?;
    match graph.order()? {
        Order::Order(_) => Ok(true),
        Order::Cycle(_) => Ok(false),
    }
}

// The graph of what items need, by their places.
fn graph_of(alloc: Global, items: &[Item]) -> Result<Graph, AllocError>
    requires rising { Rising (names_of items.now) }
    requires met { All (λ (i : item_type). All (Contains (names_of items.now)) i.needs) items.now }
    requires few { length items.now < 2 ^ 32 }
    ensures { IfOk result (λ g. HasNeeds items.now (length items.now) g) }
{
    let mut graph = Graph::new(alloc, items.len() as u32)?;
    for (place, item) in items.iter().enumerate() {
        add_needs(&mut graph, items, item.needs.as_slice(), place as u32)?;
    }
    Ok(graph)
}

// An edge to an item from each item of these names.
fn add_needs(
    graph: &mut Graph,
    items: &[Item],
    needs: &[ResName],
    after: u32,
) -> Result<(), AllocError>
    requires rising { Rising (names_of items.now) }
    requires met { All (Contains (names_of items.now)) needs.now }
    requires few { length items.now < 2 ^ 32 }
    requires size { length graph.old ≡ length items.now }
    requires after { after < length items.now }
    ensures { OnOk result (AddsNeeds items.now needs.now after graph.old graph.new) }
{
    for need in needs {
        graph.add_edge(place_of(items, need) as u32, after)?;
    }
    Ok(())
}

// The place of the item of a name.
fn place_of(items: &[Item], name: &ResName) -> usize
    requires rising { Rising (names_of items.now) }
    requires met { Contains (names_of items.now) name.now }
    ensures { IsNamedAt items.now (name.now ∷ []) result }
{
    match items.binary_search_by(|item| item.name.cmp(name)) {
        Ok(place) => place,
        Err(_) => unreachable!(),
    }
}
