//! A thousand items with 190,209 needs, as many as a template of 1 MiB can name: each item needs the
//! 213 before it, by the items' names, against them, or across them. The items are new, or an update finds
//! a row of each, which requires the rows of its needs, or a delete finds these rows alone.

use crate::graph::traversal::{item_needing, number, row_requiring};
use anyhow::{Result, bail};
use heat_plan::{Item, are_in_order};
use std::alloc::Global;
use traversal_graph::{RowBrief, build};

const COUNT: u32 = 1000;

const NEEDS: u32 = 213;

/// How the items are ranked, so that each needs those of the ranks below its own.
#[derive(Clone, Copy)]
pub enum Shape {
    Rising,
    Falling,
    Mixed,
}

/// How many edges the graph of these items has, where they are new.
pub fn drawn(alloc: Global, shape: Shape) -> Result<usize> {
    edges_of(alloc, &items(alloc, shape)?, &[])
}

/// How many edges it has where each of them has a row.
pub fn drawn_again(alloc: Global, shape: Shape) -> Result<usize> {
    edges_of(alloc, &items(alloc, shape)?, &rows(alloc, shape)?)
}

/// How many edges it has where no item is left and the rows go.
pub fn drawn_gone(alloc: Global, shape: Shape) -> Result<usize> {
    edges_of(alloc, &[], &rows(alloc, shape)?)
}

fn edges_of(alloc: Global, items: &[Item], rows: &[RowBrief]) -> Result<usize> {
    let mut chosen = Vec::new(alloc);
    for place in 0..COUNT {
        if chosen.len() < items.len() {
            chosen.push(number(place)?)?;
        }
    }
    if chosen.len() != items.len() || !are_in_order(items) {
        bail!("items in order, and a row for each");
    }
    let graph = build(alloc, items, &chosen, rows)?;
    Ok(graph.edges.len())
}

fn items(alloc: Global, shape: Shape) -> Result<Vec<Item>> {
    let mut items = Vec::new(alloc);
    for place in 0..COUNT {
        items.push(item_needing(alloc, place, &needed(alloc, shape, place)?)?)?;
    }
    Ok(items)
}

fn rows(alloc: Global, shape: Shape) -> Result<Vec<RowBrief>> {
    let mut rows = Vec::new(alloc);
    for place in 0..COUNT {
        rows.push(row_requiring(alloc, place, &needed(alloc, shape, place)?)?)?;
    }
    Ok(rows)
}

// The places of the items that one needs, rising.
fn needed(alloc: Global, shape: Shape, place: u32) -> Result<Vec<u32>> {
    let rank = rank_of(shape, place);
    let mut places = Vec::new(alloc);
    for lower in rank.saturating_sub(NEEDS)..rank {
        places.push(place_of(shape, lower))?;
    }
    places.sort_unstable();
    Ok(places)
}

fn rank_of(shape: Shape, place: u32) -> u32 {
    match shape {
        Shape::Rising => place % COUNT,
        Shape::Falling => COUNT - 1 - place % COUNT,
        Shape::Mixed => place % COUNT * 617 % COUNT,
    }
}

// The place of the item of a rank: 617 and 953 undo each other.
fn place_of(shape: Shape, rank: u32) -> u32 {
    match shape {
        Shape::Rising => rank % COUNT,
        Shape::Falling => COUNT - 1 - rank % COUNT,
        Shape::Mixed => rank % COUNT * 953 % COUNT,
    }
}
