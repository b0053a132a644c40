//! The next row of a chain of replacements.
ghost use Rattle.std.specs.Prelude.{◌<◌, ◌^◌, IfSome, IsNone, option_map};
ghost use Rattle.row_table.specs.Links.{HasNext, IsNext};

use crate::Row;
use heat_plan::RowNo;

/// The number of the row that replaced this one, if there is one and it is greater.
pub(crate) fn next_of_chain(row: Option<&Row>) -> Option<RowNo>
    ensures some { IfSome result (IsNext (option_map (λ r. r.now) row.entry)) }
    ensures none { IsNone result → HasNext (option_map (λ r. r.now) row.entry) → ⊥ }
    ensures range { IfSome result (λ n. n < 2 ^ 62) }
{
    let row = row?;
    let behind = row.replaced_by?;
    if row.no.get() < behind.get() {
        return Some(behind);
    }
    None
}
