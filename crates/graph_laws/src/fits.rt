//! Laws of how far the rows of each stack are, by its graph.
ghost use Rattle.graph_laws.specs.fits.Laws.{AllRowsFit};
ghost use Rattle.step_relation.specs.Groups.{KeptByCommands, KeptByEngines, KeptByMoves};

/// Each move of an engine leaves the rows of all stacks fitting.
pub fn rows_fit_by_moves()
    ensures { KeptByMoves AllRowsFit }
{}

/// Each command that may be laid out leaves the rows of all stacks fitting.
pub fn rows_fit_by_commands()
    ensures { KeptByCommands AllRowsFit }
{}

/// The stop of an engine, the enlisting of one and a restart do.
pub fn rows_fit_by_engines()
    ensures { KeptByEngines AllRowsFit }
{}
