//! Laws over what the calls of a provider say. Each is a function with an empty body, which stands for
//! its clauses alone.
ghost use Rattle.std.specs.Prelude.{◌≡◌, None};
ghost use Rattle.heat_plan.specs.declared.token.Token.{Token};
ghost use Rattle.provider.specs.Cloud.{Cloud, HasNone, state_of};
ghost use Rattle.provider.specs.Moves.{CallsMove, CallsRest, FoldKeeps};

/// Each answer moves the asked token as a line of the table says, and leaves every other token.
pub fn calls_move_tokens()
    ensures moves { (old new : Cloud) (token : Token) → CallsMove old new token }
    ensures rests { (old new : Cloud) → CallsRest old new }
{}

/// What a token could be, folded over its calls by the table, has the state that it is in.
pub fn folds_keep_the_state()
    ensures { FoldKeeps }
{}

/// Where no resource is alive, each token is absent.
pub fn nothing_is_absent()
    ensures { (cloud : Cloud) (token : Token) → HasNone cloud → state_of cloud token ≡ None }
{}
