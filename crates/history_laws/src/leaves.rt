//! What a step on one stack leaves of every other, and what it bears on its own.
ghost use Rattle.history_laws.specs.leaves.Closings.{RunsCloseOnce};
ghost use Rattle.history_laws.specs.leaves.Leaves.{StepsBear, StepsLeaveOthers};

/// A step on one stack leaves every other stack's record, graph with its points, past, rows, letters and
/// jobs as they were, and all that the history says of it: its tokens' states, its newest traversal and
/// its mark. Engines that come and go, notes and the closing leave those of all.
pub fn steps_leave_others()
    ensures { StepsLeaveOthers }
{}

/// A row of the step's own stack that stands behind the step was a row of that stack, or has a number
/// from the next one on; and no next number falls, whatever the step. So a row that is gone stays gone.
pub fn steps_bear_new_rows()
    ensures { StepsBear }
{}

/// In the history of a run the input is closed once at most.
pub fn runs_close_once()
    ensures { RunsCloseOnce }
{}
