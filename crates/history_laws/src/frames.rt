//! Laws of the frame: what a step on one stack leaves of all others, and that each graph stays a stack's.
ghost use Rattle.history_laws.specs.frames.Laws.{CommandsAreOnOne, MovesAreOnOne, OthersStandAsBefore};
ghost use Rattle.step_relation.specs.Groups.{KeptByCommands, KeptByEngines, KeptByMoves};
ghost use Rattle.step_relation.specs.MailFits.{GraphsStand};

/// A step on one stack leaves each other's graph, rows, mark, past and covered nodes as they were.
pub fn others_stand_as_before()
    ensures { OthersStandAsBefore }
{}

/// Each move of an engine is on one stack, that of its letter or its job, and leaves all of the others.
pub fn moves_are_on_one()
    ensures { MovesAreOnOne }
{}

/// After each move, command and change of engines each graph is that of a stack in the table.
pub fn graphs_stand()
    ensures moves { KeptByMoves GraphsStand }
    ensures commands { KeptByCommands GraphsStand }
    ensures engines { KeptByEngines GraphsStand }
{}

/// Each command is on its stack, and leaves all of the others.
pub fn commands_are_on_one()
    ensures { CommandsAreOnOne }
{}
