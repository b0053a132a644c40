//! Laws of the rows, jobs and letters of a state: each fits its stack's graph after every step.
ghost use Rattle.history_laws.specs.rows.Laws.{EachRowFitsByMoves, EachRowFitsByCommands, EachRowFitsByEngines};

/// After every move, command and change of engines each row fits its act and status.
pub fn each_row_fits()
    ensures moves { EachRowFitsByMoves }
    ensures commands { EachRowFitsByCommands }
    ensures engines { EachRowFitsByEngines }
{}
