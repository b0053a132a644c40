//! The places of tokens in a list, found by the token.
ghost use Rattle.std.specs.Prelude.{◌≡◌};
ghost use Rattle.opening_check.specs.Places.{token_cmp};

use heat_plan::Token;
use keyed_table::Keyed;
use std::cmp::Ordering;

/// Where a token stands first in a list.
#[derive(Debug, Drop)]
pub(crate) struct Listed {
    pub token: Token,
    pub place: usize,
}

/// How two tokens compare: by their rows, then by their stacks and names.
fn compared(token: &Token, other: &Token) -> Ordering
    ensures { result ≡ token_cmp token.now other.now }
{
    match token.row.cmp(&other.row) {
        Ordering::Equal => match token.stack.cmp(&other.stack) {
            Ordering::Equal => token.name.cmp(&other.name),
            order => order,
        },
        order => order,
    }
}

impl Keyed for Listed {
    type Key = Token;

    ghost use Rattle.provider.specs.Same.{same_token};
    ghost use Rattle.opening_check.specs.Places.{token_of_listed, token_below};
    ghost use Rattle.opening_check.specs.TokenOrder.{token_sorting};

    ghost key_of = { token_of_listed };

    ghost same = { same_token };

    ghost below = { token_below };

    fn key(&self) -> &Token {
        &self.token
    }

    fn has_key(&self, key: &Token) -> bool {
        compared(&self.token, key).is_eq()
    }

    fn is_below(&self, key: &Token) -> bool {
        compared(&self.token, key).is_lt()
    }

    ghost sorts = { token_sorting };
}
