//! What holds of each call over a keeper that keeps nothing. Nothing here is run: the function stands for
//! its clause.
ghost use Rattle.converge_call.specs.Laws.{NothingKeptOpensSound};

/// Over `Unkept` each book that is handed back has a sound opening, over an empty cloud: so what holds from
/// a sound opening holds there without a premise.
pub fn nothing_kept_is_sound()
    ensures { NothingKeptOpensSound }
{}
