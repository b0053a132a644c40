//! Laws of covered nodes: after every step each node of a traversal without a mark that is ready and
//! not done has a letter, a job, or a job of an earlier traversal that still has its row.
ghost use Rattle.graph_laws.specs.covers.Cases.{FailureTells, FinishTells, ReleaseTells, TakeOverTells, TakenIsCovered};
ghost use Rattle.step_relation.specs.Groups.{KeptByCommands, KeptByEngines, KeptByMoves};
ghost use Rattle.step_relation.specs.Stir.{Covered};

/// After each move of an engine every open node of a stack without a mark is covered.
pub fn covered_by_moves()
    ensures { KeptByMoves Covered }
{}

/// After each command every open node of a stack without a mark is covered.
pub fn covered_by_commands()
    ensures { KeptByCommands Covered }
{}

/// After the stop of an engine, the enlisting of one and a restart every node is covered as it was.
pub fn covered_by_engines()
    ensures { KeptByEngines Covered }
{}

/// Where a letter is taken, its node has the job.
pub fn taken_is_covered()
    ensures { TakenIsCovered }
{}

/// Where an overrun job is released, whom its row kept waiting has a letter again.
pub fn release_tells()
    ensures { ReleaseTells }
{}

/// Where a stopped engine's job is taken over, its node has a letter again.
pub fn take_over_tells()
    ensures { TakeOverTells }
{}

/// Where a job fails, whom its row kept waiting has a letter again, or the stack is marked.
pub fn failure_tells()
    ensures { FailureTells }
{}

/// Where a job is finished, each node that is ready then has a letter.
pub fn finish_tells()
    ensures { FinishTells }
{}
