//! The edges that a graph may have, sort by sort, in the order in which they are tried.

ghost use Rattle.std.specs.Prelude.{◌≡◌, ◌+◌, ◌^◌, ◌<◌, ◌≤◌, ℕ, [], ◌∷◌, ◌++◌, All, IfOk, OnOk};
ghost use Rattle.std.specs.Prelude.{length, replicate, slice_index_or, slice_set};
ghost use Rattle.std.specs.List.Sorted.{IsNonDecreasing};
ghost use Rattle.heat_plan.specs.Order.{Rising};
ghost use Rattle.heat_plan.specs.Plans.{names_of};
ghost use Rattle.traversal_graph.specs.Candidates.{candidates, place_of, edges_in, edges_out};
ghost use Rattle.traversal_graph.specs.Candidates.{need_edges, needs_into, row_edges};
ghost use Rattle.traversal_graph.specs.Candidates.{require_edges, required_behind};
ghost use Rattle.traversal_graph.specs.Candidates.{replace_edges, replaced_behind};
ghost use Rattle.traversal_graph.specs.Fans.{Adds, IsWithin, OwnsRows, all_edges};
ghost use Rattle.traversal_graph.specs.Nodes.{numbers_of};

use crate::RowBrief;
use crate::fans::Fan;
use crate::numbered::nodes_of;
use heat_plan::{Item, ResName};
use heat_value::Seq;
use std::alloc::{AllocError, Global};

/// All candidates of items and of rows, which come by rising number, in the order in which they are
/// considered.
pub(crate) fn candidates_of(
    alloc: Global,
    items: &[Item],
    rows: &[RowBrief],
) -> Result<Seq<Fan>, AllocError>
    requires rising { Rising (names_of items.now) }
    requires ordered { IsNonDecreasing (numbers_of rows.now) }
    requires size { length items.now + length rows.now < 2 ^ 32 }
    ensures exact { IfOk result (λ fans. all_edges fans ≡ candidates items.now rows.now) }
    ensures within { IfOk result (All (IsWithin (length items.now + length rows.now))) }
{
    let first = items.len() as u32;
    let mut fans = Seq::new(alloc);
    add_needs(&mut fans, items)?;
    add_rows(&mut fans, items, rows)?;
    add_requires(&mut fans, first, rows)?;
    add_replaces(&mut fans, first, rows)?;
    Ok(fans)
}

// From each item that an item needs to that item.
fn add_needs(fans: &mut Seq<Fan>, items: &[Item]) -> Result<(), AllocError>
    requires rising { Rising (names_of items.now) }
    requires few { length items.now < 2 ^ 32 }
    ensures { OnOk result ((size : ℕ) → length items.now ≤ size
        → Adds size (need_edges items.now) fans.old fans.new) }
{
    for (place, item) in items.iter().enumerate() {
        let needed = needed_by(fans.allocator(), items, item)?;
        fans.push(Fan::In(needed, place as u32))?;
    }
    Ok(())
}

// The places of the items that one needs, in the order of its needs.
fn needed_by(alloc: Global, items: &[Item], item: &Item) -> Result<Seq<u32>, AllocError>
    requires rising { Rising (names_of items.now) }
    requires few { length items.now < 2 ^ 32 }
    ensures exact { IfOk result (λ nodes. (place : ℕ)
        → edges_in nodes place ≡ needs_into items.now place item.now) }
    ensures within { IfOk result (All (λ node. node < length items.now)) }
{
    let mut nodes = Seq::new(alloc);
    for need in item.needs.as_slice() {
        let place = place_of_name(items, need);
        if place < items.len() {
            nodes.push(place as u32)?;
        }
    }
    Ok(nodes)
}

// The place of the item of a name, and past all items where there is none.
fn place_of_name(items: &[Item], name: &ResName) -> usize
    requires { Rising (names_of items.now) }
    ensures { result ≡ place_of items.now name.now }
{
    match items.binary_search_by(|item| item.name.cmp(name)) {
        Ok(place) => place,
        Err(_) => items.len(),
    }
}

// From each item to the rows of its name.
fn add_rows(fans: &mut Seq<Fan>, items: &[Item], rows: &[RowBrief]) -> Result<(), AllocError>
    requires rising { Rising (names_of items.now) }
    requires few { length items.now + length rows.now < 2 ^ 32 }
    ensures { OnOk result (Adds (length items.now + length rows.now)
        (row_edges items.now rows.now) fans.old fans.new) }
{
    let alloc = fans.allocator();
    let by_item = rows_by_item(alloc, items, rows)?;
    for (place, nodes) in by_item.iter().enumerate() {
        let nodes = Seq::from_vec(Vec::from_slice(alloc, nodes.as_slice())?);
        fans.push(Fan::Out(place as u32, nodes))?;
    }
    Ok(())
}

// For each item the nodes of the rows of its name, rising, by one pass over the rows.
fn rows_by_item(
    alloc: Global,
    items: &[Item],
    rows: &[RowBrief],
) -> Result<Vec<Seq<u32>>, AllocError>
    requires rising { Rising (names_of items.now) }
    requires few { length items.now + length rows.now < 2 ^ 32 }
    ensures { IfOk result (λ all. OwnsRows items.now rows.now all.items) }
{
    let first = items.len() as u32;
    let mut all = no_nodes(alloc, items.len())?;
    for (r, row) in rows.iter().enumerate() {
        let place = place_of_name(items, &row.name);
        if place < items.len() {
            push_to(&mut all, place, first + r as u32)?;
        }
    }
    Ok(all)
}

// Puts a node behind those of one of the lists.
fn push_to(all: &mut Vec<Seq<u32>>, place: usize, node: u32) -> Result<(), AllocError>
    requires { place < length all.old.items }
    ensures { OnOk result (all.new.items
        ≡ slice_set all.old.items place (slice_index_or all.old.items place [] ++ node ∷ [])) }
{
    all[place].push(node)
}

// So many lists without nodes.
fn no_nodes(alloc: Global, count: usize) -> Result<Vec<Seq<u32>>, AllocError>
    ensures { IfOk result (λ all. all.items ≡ replicate count []) }
{
    let mut all = Vec::with_capacity(alloc, count)?;
    for _ in 0..count {
        all.push(Seq::new(alloc))?;
    }
    Ok(all)
}

// From each row to the rows that it requires.
fn add_requires(fans: &mut Seq<Fan>, first: u32, rows: &[RowBrief]) -> Result<(), AllocError>
    requires ordered { IsNonDecreasing (numbers_of rows.now) }
    requires few { first + length rows.now < 2 ^ 32 }
    ensures { OnOk result (Adds (first + length rows.now)
        (require_edges first rows.now) fans.old fans.new) }
{
    for (r, row) in rows.iter().enumerate() {
        let required = required_of(fans.allocator(), first, rows, row)?;
        fans.push(Fan::Out(first + r as u32, required))?;
    }
    Ok(())
}

// The nodes of the rows that a row requires, rising.
fn required_of(
    alloc: Global,
    first: u32,
    rows: &[RowBrief],
    row: &RowBrief,
) -> Result<Seq<u32>, AllocError>
    requires ordered { IsNonDecreasing (numbers_of rows.now) }
    requires few { first + length rows.now < 2 ^ 32 }
    ensures exact { IfOk result (λ nodes. (r : ℕ)
        → edges_out (first + r) nodes ≡ required_behind first rows.now r row.now) }
    ensures within { IfOk result (All (λ node. node < first + length rows.now)) }
{
    nodes_of(alloc, first, rows, row.requires_.as_slice())
}

// From each row to the row that it replaces.
fn add_replaces(fans: &mut Seq<Fan>, first: u32, rows: &[RowBrief]) -> Result<(), AllocError>
    requires ordered { IsNonDecreasing (numbers_of rows.now) }
    requires few { first + length rows.now < 2 ^ 32 }
    ensures { OnOk result (Adds (first + length rows.now)
        (replace_edges first rows.now) fans.old fans.new) }
{
    for (r, row) in rows.iter().enumerate() {
        let replaced = replaced_by(fans.allocator(), first, rows, row)?;
        fans.push(Fan::Out(first + r as u32, replaced))?;
    }
    Ok(())
}

// The node of the row that a row replaces, if it is there.
fn replaced_by(
    alloc: Global,
    first: u32,
    rows: &[RowBrief],
    row: &RowBrief,
) -> Result<Seq<u32>, AllocError>
    requires ordered { IsNonDecreasing (numbers_of rows.now) }
    requires few { first + length rows.now < 2 ^ 32 }
    ensures exact { IfOk result (λ nodes. (r : ℕ)
        → edges_out (first + r) nodes ≡ replaced_behind first rows.now r row.now) }
    ensures within { IfOk result (All (λ node. node < first + length rows.now)) }
{
    match row.replaces {
        Some(replaced) => nodes_of(alloc, first, rows, &[replaced]),
        None => Ok(Seq::new(alloc)),
    }
}
