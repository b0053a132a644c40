//! Laws of what is next: every engine has a next step. Nothing here is run: each function has an empty
//! body and stands for its clauses.
ghost use Rattle.next_laws.specs.Fits.{SuitsIsOneKind, TurnIsLive, TurnSuits};
ghost use Rattle.next_laws.specs.HasTurn.{NextExists, TurnExists};

/// Whatever the state, a turn exists for whatever suits an engine's next step.
pub fn a_turn_exists()
    ensures { TurnExists }
{}

/// Where each job has its node's point and its row, a live engine has a step for something, or is
/// idle, and never both.
pub fn a_next_step_exists()
    ensures { NextExists }
{}

/// What a turn was given suits the engine's next step, and the engine is live and not idle: no turn
/// exists but for what suits.
pub fn a_turn_is_of_what_is_next()
    ensures suits { TurnSuits }
    ensures live { TurnIsLive }
{}

/// All that suits an engine's next step is of one kind: nothing; an item's properties or their fault;
/// or the answers that one request may have.
pub fn what_is_next_is_of_one_kind()
    ensures { SuitsIsOneKind }
{}
