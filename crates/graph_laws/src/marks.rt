//! Laws of marks and pasts: what a stack's mark says of its nodes and rows, and what it would go back
//! to, after every step.
ghost use Rattle.graph_laws.specs.marks.Cases.{FailureIsMarked, FaultIsMarked, LastIsMarked, OtherIsUnmarked};
ghost use Rattle.step_relation.specs.Groups.{KeptByCommands, KeptByEngines, KeptByMoves};
ghost use Rattle.step_relation.specs.MarkFits.{MarksFit, PastsFit};

/// Each move of an engine leaves all marks fitting.
pub fn marks_kept_by_moves()
    ensures { KeptByMoves MarksFit }
{}

/// Each command that may be laid out does.
pub fn marks_kept_by_commands()
    ensures { KeptByCommands MarksFit }
{}

/// The stop of an engine, the enlisting of one and a restart do.
pub fn marks_kept_by_engines()
    ensures { KeptByEngines MarksFit }
{}

/// Each move of an engine leaves all pasts fitting.
pub fn pasts_kept_by_moves()
    ensures { KeptByMoves PastsFit }
{}

/// Each command that may be laid out does.
pub fn pasts_kept_by_commands()
    ensures { KeptByCommands PastsFit }
{}

/// The stop of an engine, the enlisting of one and a restart do.
pub fn pasts_kept_by_engines()
    ensures { KeptByEngines PastsFit }
{}

/// Where the last node of all is finished and the stack is marked complete, the marks fit.
pub fn last_is_marked()
    ensures { LastIsMarked }
{}

/// Where another node is finished and nothing is marked, the marks fit.
pub fn other_is_unmarked()
    ensures { OtherIsUnmarked }
{}

/// Where a job fails and its stack is marked, the marks fit.
pub fn failure_is_marked()
    ensures { FailureIsMarked }
{}

/// Where an item can't be resolved and its stack is marked, the marks fit.
pub fn fault_is_marked()
    ensures { FaultIsMarked }
{}
