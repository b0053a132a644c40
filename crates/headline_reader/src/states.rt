//! The states in which a token may be, by its calls alone.
ghost use Rattle.std.specs.Prelude.{◌≡◌, ℕ, Bool, IfOk};
ghost use Rattle.heat_plan.specs.declared.token.Token.{Token as token_type};
ghost use Rattle.step_relation.specs.Opening.{first_of, empty_opening};
ghost use Rattle.step_relation.specs.Could.{could, could_by};
ghost use Rattle.headline_reader.specs.Called.{could_be};

use crate::after::after_each;
use crate::living::Living;
use core_state::{Entry, What};
use heat_plan::Token;
use heat_value::Seq;
use std::alloc::{AllocError, Global};

/// The states, each once; a token of which no call tells is certainly absent.
pub fn could(
    alloc: Global,
    entries: &[Entry],
    token: &Token,
) -> Result<Seq<Option<Living>>, AllocError>
    ensures { (engines : ℕ) (leaving : token_type → Bool)
        → IfOk result (λ s. s ≡ could (first_of (empty_opening engines leaving)) entries.now token.now) }
{
    states_of(alloc, entries, token)
}

/// The same, of a token that was absent at first.
pub(crate) fn states_of(
    alloc: Global,
    entries: &[Entry],
    token: &Token,
) -> Result<Seq<Option<Living>>, AllocError>
    ensures { IfOk result (λ s. s ≡ could_be entries.now token.now) }
{
    let mut states = Seq::new(alloc);
    states.push(None)?;
    for entry in entries {
        states = could_by(alloc, token, states, &entry.what)?;
    }
    Ok(states)
}

// A call to the token turns each state into those of its row.
fn could_by(
    alloc: Global,
    token: &Token,
    states: Seq<Option<Living>>,
    what: &What,
) -> Result<Seq<Option<Living>>, AllocError>
    ensures { IfOk result (λ s. s ≡ could_by token.now states what.now) }
{
    match what {
        What::Call {
            token: called,
            request,
            answer,
        } if called == token => after_each(alloc, request, answer, states.as_slice()),
        _ => Ok(states),
    }
}
