//! Laws on candidates, on orders of items, and on the edges that are kept. Each function has an empty body
//! and stands for its clauses, which hold of all items and rows.

ghost use Rattle.std.specs.Prelude.{◌≡◌, ◌↔◌, ◌+◌, ◌++◌, ℕ, List, All, Contains, get_or, length, map};
ghost use Rattle.dep_graph.specs.Orders.{Orders, TakesLeast};
ghost use Rattle.heat_plan.specs.Order.{Rising};
ghost use Rattle.heat_plan.specs.Plans.{HasNoCycle, IsListing, IsPlan, names_of};
ghost use Rattle.heat_plan.specs.declared.item.Item.{Item as item_type};
ghost use Rattle.traversal_graph.specs.declared.brief.RowBrief.{RowBrief as brief_type};
ghost use Rattle.traversal_graph.specs.declared.shape.TravGraph.{TravGraph as graph_type};
ghost use Rattle.traversal_graph.specs.Builds.{Joins};
ghost use Rattle.traversal_graph.specs.Candidates.{need_edges, row_edges, require_edges, replace_edges};
ghost use Rattle.traversal_graph.specs.Nodes.{IsBuilt};
ghost use Rattle.traversal_graph.specs.Relations.{IsNeeded, IsRowOf, IsRequired, IsReplaced, IsBehind, ListsPairs};

/// The candidates of needs are the pairs of an item and one that needs it.
pub fn needs_are_candidates()
    ensures { (items : List item_type) → Rising (names_of items) → (before after : ℕ)
        → Contains (need_edges items) (before, after) ↔ IsNeeded items before after }
{}

/// The candidates of names are the pairs of an item and a row of its name.
pub fn rows_are_candidates()
    ensures { (items : List item_type) (rows : List brief_type) (before after : ℕ)
        → Contains (row_edges items rows) (before, after)
        ↔ ((r : ℕ) × (after ≡ length items + r) × IsRowOf items rows before r) }
{}

/// The candidates of requirements are the pairs of a row and one that it requires, rising.
pub fn required_are_candidates()
    ensures { (first : ℕ) (rows : List brief_type)
        → ListsPairs (IsBehind first (IsRequired rows)) (require_edges first rows) }
{}

/// The candidates of replacements are the pairs of a row and the one that it replaces, rising.
pub fn replaced_are_candidates()
    ensures { (first : ℕ) (rows : List brief_type)
        → ListsPairs (IsBehind first (IsReplaced rows)) (replace_edges first rows) }
{}

/// An order of the items by what needs what lists them so that each stands behind its needs.
pub fn orders_are_listings()
    ensures listing { (items : List item_type) (default : item_type) (order : List ℕ)
        → All (λ (i : item_type). All (Contains (names_of items)) i.needs) items
        → Orders (IsNeeded items) (length items) order
        → IsListing items (map (λ k. get_or items k default) order) }
    ensures acyclic { (items : List item_type) (order : List ℕ)
        → All (λ (i : item_type). All (Contains (names_of items)) i.needs) items
        → Orders (IsNeeded items) (length items) order → HasNoCycle items }
{}

/// Items that have a listing have an order by what needs what, and so no cycle of needs.
pub fn listed_items_have_an_order()
    ensures { (items : List item_type) → Rising (names_of items) → HasNoCycle items
        → (order : List ℕ) × Orders (IsNeeded items) (length items) order }
{}

/// A listing of the items by their places that takes the least ready one first is an order. So the orders are
/// exactly those listings that do.
pub fn listings_are_orders()
    ensures { (items : List item_type) (default : item_type) (order : List ℕ)
        → Rising (names_of items) → TakesLeast (IsNeeded items) (length items) order
        → IsListing items (map (λ k. get_or items k default) order)
        → Orders (IsNeeded items) (length items) order }
{}

/// Under a plan each edge of a need and each of a name to a row is kept.
pub fn plans_keep_edges()
    ensures { (items : List item_type) (absent : List (List ℕ)) (chosen : List ℕ)
        (rows : List brief_type) (graph : graph_type) → IsPlan items absent
        → (built : IsBuilt items chosen rows graph) → (before after : ℕ)
        → Contains (need_edges items ++ row_edges items built.sorted) (before, after)
        → Joins graph.edges before after }
{}
