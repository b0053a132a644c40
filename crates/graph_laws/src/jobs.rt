//! Laws of jobs: after every step a job that asks or polls has a row under way, and one of its stack's
//! newest traversal stands at a ready node that isn't done, with that node's target.
ghost use Rattle.step_relation.specs.Groups.{KeptByCommands, KeptByEngines, KeptByMoves};
ghost use Rattle.step_relation.specs.MailFits.{JobsFit};

/// After each move of an engine every job fits its row, and one that isn't stale its node.
pub fn jobs_kept_by_moves()
    ensures { KeptByMoves JobsFit }
{}

/// After each command every job fits its row, and one that isn't stale its node.
pub fn jobs_kept_by_commands()
    ensures { KeptByCommands JobsFit }
{}

/// After the stop of an engine, the enlisting of one and a restart jobs fit as they did.
pub fn jobs_kept_by_engines()
    ensures { KeptByEngines JobsFit }
{}
