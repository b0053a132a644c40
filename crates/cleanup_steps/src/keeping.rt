//! What is looked at of a clean-up node's row: whether it is kept, and what was done for it.
ghost use Rattle.std.specs.Prelude.{◌≡◌, ◌↔◌, IsTrue, Some, Contains};
ghost use Rattle.heat_plan.specs.Plans.{names_of};
ghost use Rattle.heat_plan.specs.declared.phase.Act.TheVariants.{Init};
ghost use Rattle.row_table.specs.Rows.{row_at};
ghost use Rattle.step_relation.specs.Cleanups.{IsKept, IsStuck};
ghost use Rattle.step_relation.specs.Freshness.{plan_of};
ghost use Rattle.step_relation.specs.Targets.{IsCurrentOf};

use core_state::{Row, Stack, State};
use heat_plan::{Act, ResName, Status, TravNo};
use step_reads::{current_of, item_of};

/// Whether a row that stands is the current one of its name, and the plan has the name.
pub fn is_kept(s: &State, stack: &Stack, row: &Row) -> bool
    requires { row_at s.now.state.rows row.now.no ≡ Some row.now }
    ensures { IsTrue result ↔ IsKept s.now.state stack.now row.now }
{
    is_planned(stack, &row.name) && is_current(s, row)
}

// Whether the plan of a stack has an item of this name.
fn is_planned(stack: &Stack, name: &ResName) -> bool
    ensures { IsTrue result ↔ Contains (names_of (plan_of stack.now.plan).items) name.now }
{
    match &stack.plan {
        Some(plan) => item_of(plan.plan(), name).is_some(),
        None => false,
    }
}

// Whether a row that stands is the current one of its name.
fn is_current(s: &State, row: &Row) -> bool
    requires { row_at s.now.state.rows row.now.no ≡ Some row.now }
    ensures { IsTrue result ↔ IsCurrentOf s.now.state.rows row.now.stack row.now.name row.now }
{
    match current_of(s, &row.stack, &row.name) {
        Some(current) => current.no == row.no,
        None => false,
    }
}

/// Whether nothing was done for the row.
pub fn is_init(row: &Row) -> bool
    ensures { IsTrue result ↔ (row.now.act ≡ Init) }
{
    row.act == Act::Init
}

/// Whether a delete of the row failed in this traversal.
pub fn is_stuck(row: &Row, trav: TravNo) -> bool
    ensures { IsTrue result ↔ IsStuck row.now trav }
{
    row.act == Act::Delete && row.status == Status::Failed && row.trav == trav
}
