//! The rows against the list.
ghost use Rattle.std.specs.Prelude.{◌≡◌, ◌↔◌, ◌⊎◌, Bool, IfOk, IsTrue, length, option_map};
ghost use Rattle.step_relation.specs.Agrees.{IsAliveAs};
ghost use Rattle.step_relation.specs.Compared.{IsListedReady};
ghost use Rattle.step_relation.specs.Rows.{token_of as token_of_row};
ghost use Rattle.opening_check.specs.Places.{IsIndex, tokens_of};
ghost use Rattle.opening_check.specs.Rows.{Considers, IsEither, IsLowest, IsShown, TellsFacts};
ghost use Rattle.opening_check.specs.Rows.{finding_of, listed_of, lower_of, shown_of};

use crate::finding::Finding;
use crate::index::listed;
use crate::listed::Listed;
use core_state::{Row, State};
use heat_plan::{Act, Equals, Properties, Status, Token, TryCopy};
use keyed_table::Table;
use provider::Alive;
use std::alloc::AllocError;

/// What is found at the lowest row of which the list shows something else.
pub(crate) fn first_unlike(
    s: &State,
    index: &Table<Listed>,
    all: &[Alive],
) -> Result<Option<(Token, Finding)>, AllocError>
    requires { IsIndex (tokens_of all.now) index.now.items }
    ensures { IfOk result
        (IsLowest all.now s.now.state.rows (length s.now.state.rows)) }
{
    let mut first = None;
    for seen in s.rows() {
        first = considered(s, index, all, seen, first)?;
    }
    Ok(first)
}

// What is found so far, and at the row of this one's number.
fn considered(
    s: &State,
    index: &Table<Listed>,
    all: &[Alive],
    seen: &Row,
    first: Option<(Token, Finding)>,
) -> Result<Option<(Token, Finding)>, AllocError>
    requires { IsIndex (tokens_of all.now) index.now.items }
    ensures { IfOk result (Considers all.now s.now.state.rows seen.now first) }
{
    let Some(row) = s.row(&seen.no) else {
        return Ok(first);
    };
    let token = token_of(row)?;
    let found = listed(index, all, &token);
    if is_shown(row, found) {
        return Ok(first);
    }
    Ok(Some(lower(first, (token, finding(found)))))
}

// The token under which the row is asked for.
fn token_of(row: &Row) -> Result<Token, AllocError>
    ensures { IfOk result (λ t. t ≡ token_of_row row.now) }
{
    Ok(Token {
        stack: row.stack.copy()?,
        name: row.name.copy()?,
        row: row.no,
    })
}

// What is found at a row of which the list shows something else.
fn finding(found: Option<&Alive>) -> Finding
    ensures { result ≡ finding_of (option_map (λ a. a.now) found.entry) }
{
    match found {
        Some(_) => Finding::Differs,
        None => Finding::Missing,
    }
}

// The one at the lower row.
fn lower(first: Option<(Token, Finding)>, next: (Token, Finding)) -> (Token, Finding)
    ensures { result ≡ lower_of first next }
{
    match first {
        Some(other) if !(next.0.row < other.0.row) => other,
        _ => next,
    }
}

// Whether a row is listed as it has to be.
fn is_shown(row: &Row, found: Option<&Alive>) -> bool
    ensures { (leaving : Bool) → IsTrue result
        ↔ IsShown row.now (shown_of leaving (option_map (λ a. a.now) found.entry)) }
{
    match row.status {
        Status::Complete => match row.act {
            Act::Init => true,
            Act::Create | Act::Update | Act::Delete | Act::Rollback => is_ready(row, found),
        },
        Status::InProgress => match row.act {
            Act::Create => found.is_none() || is_alive_as(row, &row.props, found),
            Act::Update => is_either(row, found),
            Act::Init | Act::Delete | Act::Rollback => true,
        },
        Status::Failed => true,
    }
}

// Whether it is listed with the row's kind and these properties.
fn is_alive_as(row: &Row, props: &Properties, found: Option<&Alive>) -> bool
    ensures { (leaving : Bool) → IsTrue result
        ↔ IsAliveAs row.now props.now (shown_of leaving (option_map (λ a. a.now) found.entry)) }
{
    match found {
        Some(alive) => alive.kind.equals(&row.kind.name) && alive.props.equals(props),
        None => false,
    }
}

// Whether it is listed with the row's properties, or with those that it is to have.
fn is_either(row: &Row, found: Option<&Alive>) -> bool
    ensures { (leaving : Bool) → IsTrue result
        ↔ IsEither row.now (shown_of leaving (option_map (λ a. a.now) found.entry)) }
{
    is_alive_as(row, &row.props, found)
        || match &row.target {
            Some(target) => is_alive_as(row, target, found),
            None => false,
        }
}

// Whether it is listed as ready, with the row's kind, properties and facts.
fn is_ready(row: &Row, found: Option<&Alive>) -> bool
    ensures { (leaving : Bool) → IsTrue result
        ↔ IsListedReady row.now (shown_of leaving (option_map (λ a. a.now) found.entry)) }
{
    is_alive_as(row, &row.props, found) && has_facts(row, found)
}

// Whether the facts that the list shows are the row's.
fn has_facts(row: &Row, found: Option<&Alive>) -> bool
    ensures { (leaving : Bool) → IsTrue result
        ↔ TellsFacts row.now (shown_of leaving (option_map (λ a. a.now) found.entry)) }
{
    match (found, &row.facts) {
        (Some(alive), Some(facts)) => alive.ready && alive.facts.equals(facts),
        _ => false,
    }
}
