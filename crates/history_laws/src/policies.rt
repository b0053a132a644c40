//! Where a row's policy comes from goes on to be told: the plan of its last begin, by the history alone, or
//! the opening.
ghost use Rattle.step_relation.specs.Groups.{ToldByCommands, ToldByMoves, ToldByOthers};
ghost use Rattle.step_relation.specs.Policies.{PoliciesFit};

/// Behind each move, each command, a call that alone is told, and what is only noted, the policy of each
/// row that isn't at DELETE comes from the plan of its last begin.
pub fn policies_fit()
    ensures moves { ToldByMoves PoliciesFit }
    ensures commands { ToldByCommands PoliciesFit }
    ensures others { ToldByOthers PoliciesFit }
{}
