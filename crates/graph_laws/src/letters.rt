//! Laws of letters: after every step a letter of its stack's newest traversal names a ready node of its
//! graph.
ghost use Rattle.step_relation.specs.Groups.{KeptByCommands, KeptByEngines, KeptByMoves};
ghost use Rattle.step_relation.specs.MailFits.{LettersFit};

/// After each move of an engine every letter that isn't stale names a ready node.
pub fn letters_kept_by_moves()
    ensures { KeptByMoves LettersFit }
{}

/// After each command every letter that isn't stale names a ready node.
pub fn letters_kept_by_commands()
    ensures { KeptByCommands LettersFit }
{}

/// After the stop of an engine, the enlisting of one and a restart every letter goes where it went.
pub fn letters_kept_by_engines()
    ensures { KeptByEngines LettersFit }
{}
