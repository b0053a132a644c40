//! The index by which a stack's rows are found: their places, sorted by stack and number.
ghost use Rattle.std.specs.Prelude.{◌≡◌, ◌<◌, ◌≤◌, ◌+◌, ℕ, length, map, not};
ghost use Rattle.std.specs.Ordering.{nat_cmp, is_gt};
ghost use Rattle.keyed_table.specs.Orders.{AreApart, IsOrder, IsOrderBut, IsStart, passes_at};
ghost use Rattle.keyed_table.specs.Sortings.{text_cmp};
ghost use Rattle.row_table.specs.declared.row.Row.{Row};
ghost use Rattle.row_table.specs.Rows.{row_key};
ghost use Rattle.row_table.specs.Keys.{stack_of, stack_key, stack_below};

use crate::Row;
use heat_plan::StackName;
use keyed_table::Roomed;
use std::cmp::Ordering;

// Whether the row comes before this stack and number.
fn precedes(row: &Row, stack: &StackName, no: u64) -> bool
    ensures { result ≡ stack_below (stack_key row.now) (stack.now, no) }
{
    match row.stack.cmp(stack) {
        Ordering::Equal => row.no.get() < no,
        order => order.is_lt(),
    }
}

/// How many entries lead to rows before this stack and number.
pub(crate) fn start_of_stack(
    places: &Roomed<usize>,
    rows: &[Row],
    stack: &StackName,
    no: u64,
) -> usize
    requires { (out : ℕ) × IsOrderBut stack_below out (map stack_key rows.now) places.now.items }
    ensures { IsStart (λ k. stack_below k (stack.now, no)) (map stack_key rows.now) places.now.items result }
{
    places.as_slice().partition_point(
        |place: &usize| -> bool
            ensures { result ≡ passes_at (λ (r : Row). stack_below (stack_key r) (stack.entry.now, no))
                rows.entry.now place.now }
        {
            match rows.get(*place) {
                Some(row) => precedes(row, stack, no),
                None => false,
            }
        },
    )
}

/// How many entries lead to rows up to the last of this stack.
pub(crate) fn end_of_stack(places: &Roomed<usize>, rows: &[Row], stack: &StackName) -> usize
    requires { IsOrder stack_below (map stack_key rows.now) places.now.items }
    ensures { IsStart (λ k. not (is_gt (text_cmp k.0 stack.now))) (map stack_key rows.now) places.now.items result }
{
    places.as_slice().partition_point(
        |place: &usize| -> bool
            ensures { result ≡ passes_at (λ (r : Row). not (is_gt (text_cmp (stack_of r) stack.entry.now)))
                rows.entry.now place.now }
        {
            match rows.get(*place) {
                Some(row) => !row.stack.cmp(stack).is_gt(),
                None => false,
            }
        },
    )
}

/// Enters the one place that isn't there yet.
pub(crate) fn enter_by_stack(places: &mut Roomed<usize>, rows: &[Row], place: usize)
    requires within { place < length rows.now }
    requires apart { AreApart (map row_key rows.now) }
    requires others { IsOrderBut stack_below place (map stack_key rows.now) places.old.items }
    requires room { 0 < places.old.spare }
    ensures whole { IsOrder stack_below (map stack_key rows.now) places.new.items }
    ensures room { places.old.spare ≤ places.new.spare + 1 }
{
    let row = &rows[place];
    let at = start_of_stack(places, rows, &row.stack, row.no.get());
    places.insert(at, place);
}

/// Takes a place out.
pub(crate) fn leave_by_stack(places: &mut Roomed<usize>, rows: &[Row], place: usize)
    requires within { place < length rows.now }
    requires whole { IsOrder stack_below (map stack_key rows.now) places.old.items }
    ensures others { IsOrderBut stack_below place (map stack_key rows.now) places.new.items }
    ensures room { places.old.spare + 1 ≤ places.new.spare }
{
    let row = &rows[place];
    let at = start_of_stack(places, rows, &row.stack, row.no.get());
    let _ = places.remove(at);
}
