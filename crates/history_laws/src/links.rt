//! Laws of the links of a state: numbers below the next ones, current rows, chains of replacement,
//! locks and owners.
ghost use Rattle.step_relation.specs.Groups.{KeptByCommands, KeptByEngines, KeptByMoves};
ghost use Rattle.step_relation.specs.Linked.{Links};

/// Each move of an engine keeps the links.
pub fn links_kept_by_moves()
    ensures { KeptByMoves Links }
{}

/// Each command that may be laid out keeps the links.
pub fn links_kept_by_commands()
    ensures { KeptByCommands Links }
{}

/// The stop of an engine, the enlisting of one and a restart keep the links.
pub fn links_kept_by_engines()
    ensures { KeptByEngines Links }
{}
