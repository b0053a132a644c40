//! The tokens that the engine gave up: each release in its turn.
ghost use Rattle.std.specs.Prelude.{◌≡◌, ℕ, Bool, IfOk, OnOk};
ghost use Rattle.heat_plan.specs.declared.token.Token.{Token as token_type};
ghost use Rattle.step_relation.specs.Opening.{empty_opening};
ghost use Rattle.step_relation.specs.Stored.{released, released_by};
ghost use Rattle.headline_reader.specs.Called.{given_up, is_among};

use core_state::{Entry, What};
use heat_plan::Token;
use heat_value::{Seq, TryCopy};
use std::alloc::{AllocError, Global};

/// The tokens, in the order in which they were given up.
pub fn released(alloc: Global, entries: &[Entry]) -> Result<Seq<Token>, AllocError>
    ensures { (engines : ℕ) (leaving : token_type → Bool)
        → IfOk result (λ tokens. tokens ≡ released (empty_opening engines leaving) entries.now) }
{
    given_up(alloc, entries)
}

/// The same, without an opening.
pub(crate) fn given_up(alloc: Global, entries: &[Entry]) -> Result<Seq<Token>, AllocError>
    ensures { IfOk result (λ tokens. tokens ≡ given_up entries.now) }
{
    let mut tokens = Seq::new(alloc);
    for entry in entries {
        add_released(&mut tokens, &entry.what)?;
    }
    Ok(tokens)
}

// The token that an entry gives up, behind the others.
fn add_released(tokens: &mut Seq<Token>, what: &What) -> Result<(), AllocError>
    ensures { OnOk result (tokens.new ≡ released_by tokens.old what.now) }
{
    match what {
        What::Release { token } => tokens.push(token.copy()?),
        _ => Ok(()),
    }
}

/// Whether the token is one of these.
pub(crate) fn is_among(token: &Token, tokens: &[Token]) -> bool
    ensures { result ≡ is_among token.now tokens.now }
{
    for other in tokens {
        if token == other {
            return true;
        }
    }
    false
}
