//! Laws of the bound on turns. Nothing here is run: each function has an empty body and stands for its
//! clause.
#![tactic(auto)]

ghost use Rattle.bound_laws.specs.Bound.{TurnsLowerWork};
ghost use Rattle.bound_laws.specs.Exists.{FullWorkIsOne, PollsAreFew, WorkExists, WorkIsLeft, WorkIsOne};
ghost use Rattle.bound_laws.specs.Full.{FullWorkExists, WorkIsBounded, WorkIsLess};
ghost use Rattle.bound_laws.specs.Polls.{ProvidersSpend};
ghost use Rattle.bound_laws.specs.Turned.{TurnsAreFew};

/// An answer NotYet takes one of the polls that its cloud has left for the token, and no answer gives
/// other tokens more.
pub fn providers_spend_polls()
    ensures { ProvidersSpend }
{}

/// Each turn lowers the work that is left by one at least, that of an idle engine being none: a
/// rollback's turns have stood in it before.
pub fn turns_lower_work()
    ensures { TurnsLowerWork }
{}

/// Each state has some work left, whatever the polls that are left: it can be told.
pub fn work_exists()
    ensures { WorkExists }
{}

/// No state has two amounts of work left.
pub fn work_is_one()
    ensures { WorkIsOne }
{}

/// Where a letter waits, or there is a job, some work is left.
pub fn some_work_is_left()
    ensures { WorkIsLeft }
{}

/// Where at most 64 polls are left for each token, a job that polls stands for 66 of the work at most.
pub fn polls_are_few()
    ensures { PollsAreFew }
{}

/// The work as the state alone gives it, each job that polls standing for 66, can be told.
pub fn full_work_exists()
    ensures { FullWorkExists }
{}

/// No state has two amounts of it.
pub fn full_work_is_one()
    ensures { FullWorkIsOne }
{}

/// The finer form is never more than it, where at most 64 polls are left for each token.
pub fn finer_work_is_less()
    ensures { WorkIsLess }
{}

/// It is at most 138 for each letter and node, 206 for each job, and 69 for each row, update node, and
/// item that is gone back to.
pub fn full_work_is_bounded()
    ensures { WorkIsBounded }
{}

/// From a sound state the turns of a run of turns alone, and the work left behind them, are at most
/// the full work of that state.
pub fn turns_are_few()
    ensures { TurnsAreFew }
{}
