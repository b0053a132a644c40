//! Which row each item of a command takes, and the rows that are made.
ghost use Rattle.std.specs.Prelude.{◌≡◌, ◌↔◌, ◌≤◌, ◌<◌, ◌+◌, ◌^◌, IfOk, length, map, []};
ghost use Rattle.heat_plan.specs.Numbers.{IsNumber};
ghost use Rattle.heat_plan.specs.Order.{Rising};
ghost use Rattle.heat_plan.specs.Plans.{names_of};
ghost use Rattle.traversal_graph.specs.Candidates.{place_of};
ghost use Rattle.command_steps.specs.Choices.{found_for, is_current, lacking, noted};
ghost use Rattle.command_steps.specs.Choices.{numbered, rows_made};

use core_state::{Batch, Next, Row};
use heat_plan::{Act, Item, ResName, RowNo, StackName, TravNo, WORN};
use heat_value::Seq;
use std::alloc::{AllocError, Global};
use step_parts::new_row;

/// Of each item the last of these rows that is current and has its name; none where one is to be
/// made. It goes over the rows once, and looks each row's item up by its name.
pub(crate) fn found_for(
    alloc: Global,
    rows: &[&Row],
    items: &[Item],
) -> Result<Seq<Option<RowNo>>, AllocError>
    requires { Rising (names_of items.now) }
    ensures { IfOk result (λ found. found ≡ found_for (map (λ r. r.now) rows.now) items.now) }
{
    let mut found = none_for(alloc, items)?;
    for row in rows {
        note_row(&mut found, items, row);
    }
    Ok(found)
}

// No row for any item.
fn none_for(alloc: Global, items: &[Item]) -> Result<Seq<Option<RowNo>>, AllocError>
    ensures { IfOk result (λ found. found ≡ found_for [] items.now) }
{
    let mut found = Seq::with_capacity(alloc, items.len())?;
    for _ in items {
        found.push(None)?;
    }
    Ok(found)
}

// A later row of an item takes an earlier one's place.
fn note_row(found: &mut Seq<Option<RowNo>>, items: &[Item], row: &Row)
    requires rising { Rising (names_of items.now) }
    requires length { length found.old ≡ length items.now }
    ensures { found.new ≡ noted items.now row.now found.old }
{
    if !is_current(row) {
        return;
    }
    let place = place_of_name(items, &row.name);
    if place < items.len() {
        found.set(place, Some(row.no));
    }
}

// Whether a row isn't at DELETE, and nothing replaced it.
fn is_current(row: &Row) -> bool
    ensures { result ≡ is_current row.now }
{
    match row.act {
        Act::Delete => false,
        Act::Init | Act::Create | Act::Update | Act::Rollback => row.replaced_by.is_none(),
    }
}

// The place of the item of a name, and past all items where there is none.
fn place_of_name(items: &[Item], name: &ResName) -> usize
    requires { Rising (names_of items.now) }
    ensures { result ≡ place_of items.now name.now }
{
    match items.binary_search_by(|item| item.name.cmp(name)) {
        Ok(place) => place,
        Err(_) => items.len(),
    }
}

/// How many rows are to be made.
pub(crate) fn lacking(found: &[Option<RowNo>]) -> usize
    ensures value { result ≡ lacking found.now }
    ensures few { result ≤ length found.now }
{
    let mut count = 0;
    for row in found {
        if row.is_none() {
            count += 1;
        }
    }
    count
}

/// The numbers of the items' rows, new ones from a number on, where they suffice.
pub(crate) fn numbered(
    alloc: Global,
    first: Next,
    found: &[Option<RowNo>],
) -> Result<Vec<RowNo>, AllocError>
    ensures length { IfOk result (λ all. length all.items ≡ length found.now) }
    ensures exact { IfOk result (λ all. first + lacking found.now ≤ 2 ^ 62
        → all.items ≡ numbered first found.now) }
{
    let mut next = first.get();
    let mut all = Vec::with_capacity(alloc, found.len())?;
    for row in found {
        match row {
            Some(no) => all.push(*no)?,
            None => {
                all.push(row_no(next))?;
                next = above(next);
            }
        }
    }
    Ok(all)
}

// The row's number of this value, and any where it is worn out.
fn row_no(number: u64) -> RowNo
    ensures { IsNumber number → result ≡ number }
{
    match RowNo::new(number) {
        Some(no) => no,
        None => RowNo::new(1).unwrap(),
    }
}

// The number behind this one, up to the one that is worn out.
fn above(number: u64) -> u64
    requires { (1 ≤ number) × (number ≤ 2 ^ 62) }
    ensures next { number < 2 ^ 62 → result ≡ number + 1 }
    ensures range { (1 ≤ result) × (result ≤ 2 ^ 62) }
{
    if number < WORN { number + 1 } else { number }
}

/// The rows that are made for the items that have none, numbered in the items' order.
pub(crate) fn rows_made(
    alloc: Global,
    stack: &StackName,
    trav: TravNo,
    first: Next,
    items: &[Item],
    found: &[Option<RowNo>],
) -> Result<Batch<Row>, AllocError>
    requires length { length found.now ≡ length items.now }
    requires room { first + lacking found.now ≤ 2 ^ 62 }
    ensures { IfOk result (λ rows. rows ≡ rows_made stack.now trav first items.now found.now) }
{
    let mut next = first.get();
    let mut rows = Batch::new(alloc);
    for (i, item) in items.iter().enumerate() {
        if found[i].is_none() {
            rows.push(new_row(alloc, stack, trav, RowNo::new(next).unwrap(), item)?)?;
            next += 1;
        }
    }
    Ok(rows)
}
