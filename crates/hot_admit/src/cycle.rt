//! A04: the cycle in what items need, found by the search for an order in their graph.
ghost use Rattle.std.specs.Prelude.{◌≡◌, ◌<◌, ◌^◌, [], ◌∷◌, IfOk, OnOk, MatchOption, All, Contains, length};
ghost use Rattle.heat_plan.specs.Order.{Rising};
ghost use Rattle.heat_plan.specs.Plans.{names_of};
ghost use Rattle.heat_plan.specs.declared.item.Item.{Item as item_type};
ghost use Rattle.hot_admit.specs.Cycles.{IsNamedAt, AddsNeeds, HasNeeds, names_at, HasOrder, IsCycleOf};

use dep_graph::{Graph, Order};
use heat_plan::{Item, ResName};
use heat_value::{Path, Step, Text};
use std::alloc::{AllocError, Global};

/// The names on the cycle of needs, where there is one.
pub(crate) fn needs_cycle(alloc: Global, items: &[Item]) -> Result<Option<Path>, AllocError>
    requires rising { Rising (names_of items.now) }
    requires met { All (λ (i : item_type). All (Contains (names_of items.now)) i.needs) items.now }
    requires few { length items.now < 2 ^ 32 }
    ensures { IfOk result (λ o. MatchOption o (HasOrder items.now) (IsCycleOf items.now)) }
{
    let graph = graph_of(alloc, items)?;
    match graph.order()? {
        Order::Order(_) => Ok(None),
        Order::Cycle(cycle) => Ok(Some(path_of(alloc, items, cycle.as_slice())?)),
    }
}

// The names of the items at these places.
fn path_of(alloc: Global, items: &[Item], places: &[u32]) -> Result<Path, AllocError>
    requires { All (λ p. p < length items.now) places.now }
    ensures { IfOk result (λ p. p ≡ names_at items.now places.now) }
{
    let mut path = Path::root(alloc);
    for place in places {
        let name = items[*place as usize].name.as_str();
        path.push(Step::Key(Text::from_str(alloc, name)?))?;
    }
    Ok(path)
}

// The graph of what items need, by their places.
fn graph_of(alloc: Global, items: &[Item]) -> Result<Graph, AllocError>
    requires rising { Rising (names_of items.now) }
    requires met { All (λ (i : item_type). All (Contains (names_of items.now)) i.needs) items.now }
    requires few { length items.now < 2 ^ 32 }
    ensures { IfOk result (λ g. HasNeeds items.now (length items.now) g) }
{
    let mut graph = Graph::new(alloc, items.len() as u32)?;
    for (place, item) in items.iter().enumerate() {
        add_needs(&mut graph, items, item.needs.as_slice(), place as u32)?;
    }
    Ok(graph)
}

// An edge to an item from each item of these names.
fn add_needs(
    graph: &mut Graph,
    items: &[Item],
    needs: &[ResName],
    after: u32,
) -> Result<(), AllocError>
    requires rising { Rising (names_of items.now) }
    requires met { All (Contains (names_of items.now)) needs.now }
    requires few { length items.now < 2 ^ 32 }
    requires size { length graph.old ≡ length items.now }
    requires after { after < length items.now }
    ensures { OnOk result (AddsNeeds items.now needs.now after graph.old graph.new) }
{
    for need in needs {
        graph.add_edge(place_of(items, need) as u32, after)?;
    }
    Ok(())
}

// The place of the item of a name.
fn place_of(items: &[Item], name: &ResName) -> usize
    requires rising { Rising (names_of items.now) }
    requires met { Contains (names_of items.now) name.now }
    ensures { IsNamedAt items.now (name.now ∷ []) result }
{
    match items.binary_search_by(|item| item.name.cmp(name)) {
        Ok(place) => place,
        Err(_) => unreachable!(),
    }
}
