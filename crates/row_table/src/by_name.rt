//! The index by which rows are found by stack and name: their places, sorted by stack, name and number.
ghost use Rattle.std.specs.Prelude.{◌≡◌, ◌<◌, ◌≤◌, ◌+◌, ℕ, length, map, not};
ghost use Rattle.std.specs.Ordering.{nat_cmp, is_gt};
ghost use Rattle.keyed_table.specs.Orders.{AreApart, IsOrder, IsOrderBut, IsStart, passes_at};
ghost use Rattle.row_table.specs.declared.row.Row.{Row};
ghost use Rattle.row_table.specs.Rows.{row_key};
ghost use Rattle.row_table.specs.Keys.{name_of, name_key, name_cmp, name_below};

use crate::Row;
use heat_plan::{ResName, StackName};
use keyed_table::Roomed;
use std::cmp::Ordering;

// How the row's stack and name compare with these.
fn cmp_name(row: &Row, stack: &StackName, name: &ResName) -> Ordering
    ensures { result ≡ name_cmp (name_of row.now) (stack.now, name.now) }
{
    match row.stack.cmp(stack) {
        Ordering::Equal => row.name.cmp(name),
        order => order,
    }
}

// Whether the row comes before this stack, name and number.
fn precedes(row: &Row, stack: &StackName, name: &ResName, no: u64) -> bool
    ensures { result ≡ name_below (name_key row.now) ((stack.now, name.now), no) }
{
    match cmp_name(row, stack, name) {
        Ordering::Equal => row.no.get() < no,
        order => order.is_lt(),
    }
}

/// How many entries lead to rows before this stack, name and number.
pub(crate) fn start_of_name(
    places: &Roomed<usize>,
    rows: &[Row],
    stack: &StackName,
    name: &ResName,
    no: u64,
) -> usize
    requires { (out : ℕ) × IsOrderBut name_below out (map name_key rows.now) places.now.items }
    ensures { IsStart (λ k. name_below k ((stack.now, name.now), no)) (map name_key rows.now) places.now.items result }
{
    places.as_slice().partition_point(
        |place: &usize| -> bool
            ensures { result ≡ passes_at (λ (r : Row). name_below (name_key r) ((stack.entry.now, name.entry.now), no))
                rows.entry.now place.now }
        {
            match rows.get(*place) {
                Some(row) => precedes(row, stack, name, no),
                None => false,
            }
        },
    )
}

/// How many entries lead to rows up to the last of this stack and name.
pub(crate) fn end_of_name(
    places: &Roomed<usize>,
    rows: &[Row],
    stack: &StackName,
    name: &ResName,
) -> usize
    requires { IsOrder name_below (map name_key rows.now) places.now.items }
    ensures { IsStart (λ k. not (is_gt (name_cmp k.0 (stack.now, name.now)))) (map name_key rows.now)
        places.now.items result }
{
    places.as_slice().partition_point(
        |place: &usize| -> bool
            ensures { result ≡ passes_at (λ (r : Row). not (is_gt (name_cmp (name_of r) (stack.entry.now, name.entry.now))))
                rows.entry.now place.now }
        {
            match rows.get(*place) {
                Some(row) => !cmp_name(row, stack, name).is_gt(),
                None => false,
            }
        },
    )
}

/// Enters the one place that isn't there yet.
pub(crate) fn enter_by_name(places: &mut Roomed<usize>, rows: &[Row], place: usize)
    requires within { place < length rows.now }
    requires apart { AreApart (map row_key rows.now) }
    requires others { IsOrderBut name_below place (map name_key rows.now) places.old.items }
    requires room { 0 < places.old.spare }
    ensures whole { IsOrder name_below (map name_key rows.now) places.new.items }
    ensures room { places.old.spare ≤ places.new.spare + 1 }
{
    let row = &rows[place];
    let at = start_of_name(places, rows, &row.stack, &row.name, row.no.get());
    places.insert(at, place);
}

/// Takes a place out.
pub(crate) fn leave_by_name(places: &mut Roomed<usize>, rows: &[Row], place: usize)
    requires within { place < length rows.now }
    requires whole { IsOrder name_below (map name_key rows.now) places.old.items }
    ensures others { IsOrderBut name_below place (map name_key rows.now) places.new.items }
    ensures room { places.old.spare + 1 ≤ places.new.spare }
{
    let row = &rows[place];
    let at = start_of_name(places, rows, &row.stack, &row.name, row.no.get());
    let _ = places.remove(at);
}
