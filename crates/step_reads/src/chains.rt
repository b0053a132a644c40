//! Which rows' chains end at a row.
ghost use Rattle.std.specs.Prelude.{◌↔◌, IfOk, IsTrue, Contains};
ghost use Rattle.std.specs.Bool.{OnTrue, OnFalse};
ghost use Rattle.step_reads.specs.Chains.{AreLeading, LeadsNext};

use crate::standing::by_number;
use crate::targets::{behind, is_below};
use core_state::{Row, State};
use heat_plan::RowNo;
use heat_value::Seq;
use std::alloc::{AllocError, Global};

/// The numbers of the rows whose chains end at a row.
pub(crate) fn leading_to(alloc: Global, s: &State, row: RowNo) -> Result<Seq<RowNo>, AllocError>
    ensures { IfOk result (λ leading. AreLeading s.now.state.rows row leading) }
{
    let standing = by_number(alloc, s.rows())?;
    let mut leading = Seq::new(alloc);
    let mut left = standing.len();
    while left > 0 {
        left -= 1;
        let other = standing.as_slice()[left];
        if leads_next(s, leading.as_slice(), other, row) {
            leading.push(other.no)?;
        }
    }
    Ok(leading)
}

// Whether a row's chain goes on to one of these rows, or ends with the row of this number itself.
fn leads_next(s: &State, leading: &[RowNo], row: &Row, end: RowNo) -> bool
    ensures yes { OnTrue result (LeadsNext s.now.state.rows leading.now row.now end) }
    ensures no_ { OnFalse result (¬ LeadsNext s.now.state.rows leading.now row.now end) }
{
    match &row.replaced_by {
        Some(no) if is_below(row.no, *no) && is_in(leading, *no) => true,
        _ => row.no == end && behind(s, row).is_none(),
    }
}

/// Whether a number is one of these.
pub(crate) fn is_in(numbers: &[RowNo], number: RowNo) -> bool
    ensures { IsTrue result ↔ Contains numbers.now number }
{
    numbers.contains(&number)
}
