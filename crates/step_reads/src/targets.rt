//! The row that a node is about.
ghost use Rattle.std.specs.Prelude.{◌≡◌, ◌<◌, ◌^◌, ◌↔◌, IsTrue, IsNone, IfSome, Some};
ghost use Rattle.row_table.specs.Rows.{row_at};
ghost use Rattle.row_table.specs.Chains.{Leads, IsLast};
ghost use Rattle.step_relation.specs.Targets.{IsTarget};
ghost use Rattle.step_reads.specs.Rows.{IsBehind, HasNoTarget};

use crate::current::current_of;
use core_state::{Row, State};
use heat_plan::{RowNo, StackName};
use traversal_graph::Node;

/// The row that a node of a stack is about: a clean-up node's own; where an update node's row
/// stands, the end of its chain; else the current row of its name, and none where there is none.
pub fn target_of(s: &State, stack: &StackName, node: &Node) -> Option<RowNo>
    ensures some { IfSome result (IsTarget s.now.state.rows stack.now node.now) }
    ensures none { IsNone result → HasNoTarget s.now.state.rows stack.now node.now }
{
    match node {
        Node::C(no) => Some(*no),
        Node::U(name, no) => {
            if let Some(row) = s.row(no) {
                return Some(end_of(s, row));
            }
            let current = current_of(s, stack, name)?;
            Some(current.no)
        }
    }
}

// The last row of a row's chain.
fn end_of(s: &State, row: &Row) -> RowNo
    requires { row_at s.now.state.rows row.now.no ≡ Some row.now }
    ensures { Leads s.now.state.rows row.now.no result }
{
    let mut last = row;
    while let Some(behind) = behind(s, last) {
        last = behind;
    }
    last.no
}

/// The row that replaced a row, where it stands and has a greater number.
pub(crate) fn behind<'a>(s: &'a State, row: &Row) -> Option<&'a Row>
    ensures some { IfSome result (λ q. IsBehind s.now.state.rows row.now q.now) }
    ensures none { IsNone result → IsLast s.now.state.rows row.now }
{
    match &row.replaced_by {
        Some(no) if is_below(row.no, *no) => s.row(no),
        _ => None,
    }
}

/// Whether one number is below another.
pub(crate) fn is_below(a: RowNo, b: RowNo) -> bool
    ensures value { IsTrue result ↔ (a < b) }
    ensures range { b < 2 ^ 62 }
{
    a.get() < b.get()
}
