//! Laws of every image with which a book is opened: it is workable, each step leaves it so, and each
//! engine then has what its next step needs. Nothing here is run: each function has an empty body and
//! stands for its clauses.
#![tactic(auto)]

ghost use Rattle.workable_laws.specs.Laws.{AdmittedIsWorkable, RestartedIsWorkable, RunsHaveNext};
ghost use Rattle.workable_laws.specs.Laws.{RunsStayWorkable, SoundIsAdmitted, SoundIsWorkable};
ghost use Rattle.workable_laws.specs.Laws.{StepsApply, StepsAreKeepable, StepsKeepWorkable, WorkableHasNext};
ghost use Rattle.workable_laws.specs.Laws.{WorkableHasWork, WorkableMayAsk};

/// An admitted image, tied up in itself and not at odds with the cloud's list, is workable where no live
/// engine has a job, as once its engines are stopped and others are enlisted.
pub fn an_admitted_image_is_workable()
    ensures still { AdmittedIsWorkable }
    ensures restarted { RestartedIsWorkable }
{}

/// A sound state is workable, and a sound opening is admitted.
pub fn a_sound_state_is_workable()
    ensures workable { SoundIsWorkable }
    ensures admitted { SoundIsAdmitted }
{}

/// Each step leaves a workable state workable, whatever it is given and answered.
pub fn steps_keep_workable()
    ensures { StepsKeepWorkable }
{}

/// Each change of a step from a workable state may be made where it stands: none is Bad. A record may hold
/// them: no row that is written is at a rollback, or has a key of 2^62.
pub fn steps_apply()
    ensures apply { StepsApply }
    ensures keepable { StepsAreKeepable }
{}

/// In a workable state a live engine has what its next step needs, asks of the cloud only what may be
/// asked, and has one next step or is idle.
pub fn a_workable_state_has_work()
    ensures work { WorkableHasWork }
    ensures asks { WorkableMayAsk }
    ensures next { WorkableHasNext }
{}

/// Every run from an admitted image, sound or not, stays workable, and each of its live engines has one
/// next step, or is idle.
pub fn runs_stay_workable()
    ensures workable { RunsStayWorkable }
    ensures next { RunsHaveNext }
{}
