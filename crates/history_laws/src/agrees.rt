//! What the history tells goes on to be so: the state's stacks, rows and marks; what may be alive under
//! each token fits its row; and what was given up is left alone.
ghost use Rattle.step_relation.specs.Agrees.{Agrees};
ghost use Rattle.step_relation.specs.Groups.{ToldByCommands, ToldByMoves, ToldByOthers};
ghost use Rattle.step_relation.specs.Tells.{ReleasedFits, Tells};

/// Behind each move the history tells the state's stacks, rows and marks.
pub fn moves_tell()
    ensures { ToldByMoves Tells }
{}

/// Behind each move what may be alive under each token fits its row.
pub fn moves_agree()
    ensures { ToldByMoves Agrees }
{}

/// Behind each move a token that was given up is no row's and is called no more.
pub fn moves_release()
    ensures { ToldByMoves ReleasedFits }
{}

/// Behind each command the history tells the state's stacks, rows and marks.
pub fn commands_tell()
    ensures { ToldByCommands Tells }
{}

/// Behind each command what may be alive under each token fits its row.
pub fn commands_agree()
    ensures { ToldByCommands Agrees }
{}

/// Behind each command a token that was given up is no row's and is called no more.
pub fn commands_release()
    ensures { ToldByCommands ReleasedFits }
{}

/// The same of a call that alone is told, and of what is only noted.
pub fn others_tell()
    ensures tells { ToldByOthers Tells }
    ensures agrees { ToldByOthers Agrees }
    ensures released { ToldByOthers ReleasedFits }
{}
