//! The row that an engine's job asks for.
ghost use Rattle.std.specs.Prelude.{◌≡◌, ◌≢◌};
ghost use Rattle.std.specs.Bool.{OnFalse, OnTrue};
ghost use Rattle.heat_plan.specs.declared.phase.Act.TheVariants.{Delete};
ghost use Rattle.mail_table.specs.declared.mail.Stage.{Stage};
ghost use Rattle.step_relation.specs.Asks.{Calls};
ghost use Rattle.book.specs.Outcomes.{IsCalled};

use core_state::{Row, State};
use heat_plan::{Act, EngineNo};

/// The row of an engine's job that asks or polls.
pub(crate) fn called_row<'a>(state: &'a State, e: EngineNo) -> &'a Row
    requires { (stage : Stage) × Calls state.now.state e stage }
    ensures { IsCalled state.now.state e result.now }
{
    let Some(job) = state.job(&e) else {
        unreachable!()
    };
    let Some(row) = state.row(&job.row) else {
        unreachable!()
    };
    row
}

/// Whether the row's resource was sent away.
pub(crate) fn is_sent_away(row: &Row) -> bool
    ensures yes { OnTrue result (row.now.act ≡ Delete) }
    ensures no_ { OnFalse result (row.now.act ≢ Delete) }
{
    row.act == Act::Delete
}
