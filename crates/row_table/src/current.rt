//! Whether a row is a current one.
ghost use Rattle.std.specs.Prelude.{◌↔◌, IsTrue};
ghost use Rattle.row_table.specs.Chains.{IsCurrent};

use crate::Row;
use heat_plan::Act;

/// Whether the row is one in which a resource stands now.
pub(crate) fn is_current(row: &Row) -> bool
    ensures { IsTrue result ↔ IsCurrent row.now }
{
    row.act != Act::Delete && row.replaced_by.is_none()
}
