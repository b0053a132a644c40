//! The laws of the engine's steps and runs, put together from the laws of each group.
ghost use Rattle.step_relation.specs.Laws.{NothingKeptIsSound, RestartsKeepSound, SoundOpeningsHaveHeadline};
ghost use Rattle.step_relation.specs.Laws.{SoundOpeningsStaySound, StepsKeepSound};

/// From a sound state each step leaves a sound state, where the answers were ones that a provider gives.
pub fn steps_keep_sound()
    ensures { StepsKeepSound }
{}

/// Every run from a sound opening stays sound, and has the main theorem.
pub fn sound_openings_have_headline()
    ensures sound { SoundOpeningsStaySound }
    ensures headline { SoundOpeningsHaveHeadline }
{}

/// A state that is sound as an opening stays so where all its engines are stopped and others are enlisted:
/// what a restart begins with, and an opening over what was left.
pub fn restarts_keep_sound()
    ensures { RestartsKeepSound }
{}

/// An opening over nothing whose comparison finds nothing is over an empty cloud, and is sound.
pub fn an_empty_opening_is_sound()
    ensures { NothingKeptIsSound }
{}
