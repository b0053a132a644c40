//! Items of which each needs the ten before it, and as many rows, each of which requires ten.

use anyhow::{Result, bail};
use heat_plan::{Item, Needs, ResName, RowNo, are_in_order, is_rising};
use heat_value::Seq;
use sample_plans::bare_item;
use std::alloc::Global;
use traversal_graph::{RowBrief, build};

/// How many edges the graph of so many items and rows has.
pub fn drawn(alloc: Global, count: u32) -> Result<usize> {
    let mut items = Vec::new(alloc);
    let mut chosen = Vec::new(alloc);
    let mut rows = Vec::new(alloc);
    for place in 0..count {
        items.push(item_needing(alloc, place, &below(alloc, place)?)?)?;
        chosen.push(number(count.saturating_add(place))?)?;
        rows.push(row_requiring(alloc, place, &below(alloc, place)?)?)?;
    }
    if chosen.len() != items.len() || !are_in_order(&items) {
        bail!("items in order, and a row for each");
    }
    let graph = build(alloc, &items, &chosen, &rows)?;
    Ok(graph.edges.len())
}

// The ten places below one.
fn below(alloc: Global, place: u32) -> Result<Vec<u32>> {
    let mut places = Vec::new(alloc);
    for before in place.saturating_sub(10)..place {
        places.push(before)?;
    }
    Ok(places)
}

/// The item of a place, which needs those of these places.
pub fn item_needing(alloc: Global, place: u32, needed: &[u32]) -> Result<Item> {
    let mut needs = Seq::new(alloc);
    for before in needed {
        needs.push(name(alloc, *before)?)?;
    }
    if !is_rising(needs.as_slice()) {
        bail!("needs rise");
    }
    let mut item = bare_item(alloc, name(alloc, place)?)?;
    item.needs = Needs::from_rising(needs);
    Ok(item)
}

/// The row of a place, which requires those of these places.
pub fn row_requiring(alloc: Global, place: u32, needed: &[u32]) -> Result<RowBrief> {
    let mut required = Seq::new(alloc);
    for before in needed {
        required.push(number(*before)?)?;
    }
    Ok(RowBrief {
        no: number(place)?,
        name: name(alloc, place)?,
        requires_: required,
        replaces: None,
    })
}

fn name(alloc: Global, place: u32) -> Result<ResName> {
    let text = format!(in alloc; "r{place:08}")?;
    match ResName::read(alloc, text.as_bytes())? {
        Some(name) => Ok(name),
        None => bail!("a name"),
    }
}

/// A row's number, by a place.
pub fn number(place: u32) -> Result<RowNo> {
    match RowNo::new(u64::from(place) + 1) {
        Some(no) => Ok(no),
        None => bail!("a number"),
    }
}
