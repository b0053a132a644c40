//! The nodes of rows by the rows' numbers, each number looked up among the rows, which come by rising
//! number.

ghost use Rattle.std.specs.Prelude.{◌≡◌, ◌↔◌, ◌+◌, ◌^◌, ◌<◌, ◌≤◌, [], ◌∷◌, IfOk, IsTrue, OnOk};
ghost use Rattle.std.specs.Prelude.{Some, length, nat_lt, slice_get};
ghost use Rattle.std.specs.List.Sorted.{IsNonDecreasing, IsPartitionPoint};
ghost use Rattle.dep_graph.specs.Lists.{IsRising, ListsAll};
ghost use Rattle.traversal_graph.specs.declared.brief.RowBrief.{RowBrief as brief_type};
ghost use Rattle.traversal_graph.specs.Nodes.{numbers_of};
ghost use Rattle.traversal_graph.specs.Numbered.{IsNumbered, PutsAll};

use crate::RowBrief;
use dep_graph::put_in;
use heat_plan::RowNo;
use heat_value::Seq;
use std::alloc::{AllocError, Global};

/// The nodes of the rows of these numbers, rising; a number that is no row's has none.
pub(crate) fn nodes_of(
    alloc: Global,
    first: u32,
    rows: &[RowBrief],
    numbers: &[RowNo],
) -> Result<Seq<u32>, AllocError>
    requires ordered { IsNonDecreasing (numbers_of rows.now) }
    requires few { first + length rows.now < 2 ^ 32 }
    ensures { IfOk result (ListsAll (IsNumbered first rows.now numbers.now)) }
{
    let mut nodes = Seq::new(alloc);
    for number in numbers {
        put_rows(&mut nodes, first, rows, *number)?;
    }
    Ok(nodes)
}

// Puts the nodes of the rows of a number in among others.
fn put_rows(
    nodes: &mut Seq<u32>,
    first: u32,
    rows: &[RowBrief],
    number: RowNo,
) -> Result<(), AllocError>
    requires ordered { IsNonDecreasing (numbers_of rows.now) }
    requires few { first + length rows.now < 2 ^ 32 }
    requires rising { IsRising nodes.old }
    ensures { OnOk result (PutsAll (IsNumbered first rows.now (number ∷ [])) nodes.old nodes.new) }
{
    let mut q = start_of(rows, number);
    while has_number(rows, q, number) {
        put_in(nodes, first + q as u32)?;
        q += 1;
    }
    Ok(())
}

// Whether the row at a place has the number.
fn has_number(rows: &[RowBrief], q: usize, number: RowNo) -> bool
    ensures { IsTrue result ↔ ((row : brief_type) × (slice_get rows.now q ≡ Some row) × (row.no ≡ number)) }
{
    match rows.get(q) {
        Some(row) => row.no == number,
        None => false,
    }
}

// How many rows come before a number.
fn start_of(rows: &[RowBrief], number: RowNo) -> usize
    requires { IsNonDecreasing (numbers_of rows.now) }
    ensures bound { result ≤ length rows.now }
    ensures parts { IsPartitionPoint (λ (row : brief_type). row.no < number)
        (λ (row : brief_type). number ≤ row.no) rows.now result }
{
    rows.partition_point(
        |row: &RowBrief| -> bool
            ensures { result ≡ nat_lt row.now.no number }
        { row.no < number },
    )
}
