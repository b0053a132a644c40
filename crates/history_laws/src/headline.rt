//! What a sound state says of its history: what is marked Complete fits its plan, and the main theorem.
ghost use Rattle.history_laws.specs.headline.Kept.{StandingHasHeadline, StandingKeepsSound, StandingStirs, StepsKeepRuns};
ghost use Rattle.step_relation.specs.Laws.{EmptyIsSound, StatesAreOpenings};

/// An empty history over nothing is sound.
pub fn empty_is_sound()
    ensures { EmptyIsSound }
{}

/// A sound state with a cloud in a state that its history allows is a sound opening.
pub fn states_are_openings()
    ensures { StatesAreOpenings }
{}

/// Where moves, commands and what is done with engines leave a standing state, each step keeps a state
/// with its history sound.
pub fn standing_keeps_sound()
    ensures { StandingKeepsSound }
{}

/// Where each step keeps a state sound, every run from a sound opening stays sound.
pub fn steps_keep_runs()
    ensures { StepsKeepRuns }
{}

/// In a standing state each stack without a mark has a node that is ready, not done and not forgotten.
pub fn standing_stirs()
    ensures { StandingStirs }
{}

/// And every run from a sound opening has the main theorem.
pub fn standing_has_headline()
    ensures { StandingHasHeadline }
{}
