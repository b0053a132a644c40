//! Laws of the next step: a state decides the turn of each engine by what it is given, and what a
//! command lays out; every engine has a next step (`turn_laws`), and in a sound state each job has what
//! its step needs (`work_laws`). Nothing here is run: each function has an empty body and stands for its
//! clauses.
#![tactic(auto)]

ghost use Rattle.next_laws.specs.OneTurn.{LayoutIsOne, TurnIsOne};
ghost use Rattle.next_laws.specs.Range.{StepsStayInRange, WornLayoutWears, WornTurnWears};
ghost use Rattle.next_laws.specs.Worn.{CallIsNotWorn, QuietIsNotWorn};

mod turn_laws;
mod work_laws;

pub use turn_laws::{
    a_next_step_exists, a_turn_exists, a_turn_is_of_what_is_next, what_is_next_is_of_one_kind,
};
pub use work_laws::{
    a_sound_state_has_work, calls_may_be_made, calls_stand, old_is_stale, points_stand,
};

/// An engine that is given the same makes the same turn on the same state, whatever the state.
pub fn a_turn_is_one()
    ensures { TurnIsOne }
{}

/// A command lays out the same on the same state, for the same stack, items and settings.
pub fn a_layout_is_one()
    ensures { LayoutIsOne }
{}

/// A turn whose own changes aren't worn is not worn out, where it is given no answer; where it is
/// given one, the changes that a failure would make decide.
pub fn an_unworn_turn_is_not_worn_out()
    ensures quiet { QuietIsNotWorn }
    ensures call { CallIsNotWorn }
{}

/// Where no next number is past 2^62 and each row's key is below it, each step leaves it so.
pub fn steps_stay_in_range()
    ensures { StepsStayInRange }
{}

/// What is worn there is exactly what would draw a number at 2^62 or raise a key to it.
pub fn worn_is_the_last_number()
    ensures turn { WornTurnWears }
    ensures layout { WornLayoutWears }
{}
