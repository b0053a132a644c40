//! The list against the rows.
ghost use Rattle.std.specs.Prelude.{◌≡◌, ◌↔◌, IsTrue, option_map};
ghost use Rattle.step_relation.specs.Compared.{IsExpected, IsKnown};
ghost use Rattle.opening_check.specs.Places.{IsIndex};
ghost use Rattle.opening_check.specs.Strangers.{IsStranger};

use crate::listed::Listed;
use core_state::State;
use heat_plan::{Act, Equals, Token};
use keyed_table::Table;
use provider::Alive;

/// The first resource of the list that is nobody's.
pub(crate) fn first_stranger<'a>(
    s: &State,
    given_up: &Table<Listed>,
    all: &'a [Alive],
) -> Option<&'a Alive>
    requires { IsIndex s.now.state.released given_up.now.items }
    ensures { IsStranger s.now.state all.now (option_map (λ a. a.now) result) }
{
    for alive in all {
        if !is_expected(s, given_up, &alive.token) {
            return Some(alive);
        }
    }
    None
}

// Whether a token is that of a row that isn't at INIT, or was given up.
fn is_expected(s: &State, given_up: &Table<Listed>, token: &Token) -> bool
    requires { IsIndex s.now.state.released given_up.now.items }
    ensures { IsTrue result ↔ IsExpected s.now.state token.now }
{
    is_known(s, token) || given_up.get(token).is_some()
}

// Whether a token is that of a row that isn't at INIT.
fn is_known(s: &State, token: &Token) -> bool
    ensures { IsTrue result ↔ IsKnown s.now.state token.now }
{
    match s.row(&token.row) {
        Some(row) => {
            row.act != Act::Init
                && row.no == token.row
                && row.stack.equals(&token.stack)
                && row.name.equals(&token.name)
        }
        None => false,
    }
}
