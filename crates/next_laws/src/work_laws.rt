//! Laws of the engines' work: what a step of a sound state finds. Nothing here is run: each function
//! has an empty body and stands for its clauses.
ghost use Rattle.next_laws.specs.Found.{CallsMayBeMade, CallsStand, OldIsStale, PointsStand, SoundHasWork};

/// A job that asks or polls has a row under way for its letter's traversal, and the row's act says
/// what is asked for it.
pub fn calls_stand()
    ensures { CallsStand }
{}

/// What a job asks for its row may be asked of the row's token, whatever state the token may be in.
pub fn calls_may_be_made()
    ensures { CallsMayBeMade }
{}

/// A node that a letter or a job of its stack's newest traversal names has its point.
pub fn points_stand()
    ensures { PointsStand }
{}

/// A letter or a job has no work exactly where its stack is gone or has another traversal.
pub fn old_is_stale()
    ensures { OldIsStale }
{}

/// In a sound state each job has what its next step needs, so that each live engine has a step for
/// something or is idle.
pub fn a_sound_state_has_work()
    ensures { SoundHasWork }
{}
