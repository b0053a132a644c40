//! Whether each current row is the newest of its stack and name. The rows' tokens are sorted, so that those of
//! one name stand side by side.
ghost use Rattle.std.specs.Prelude.{◌≡◌, ◌↔◌, IfOk, IsTrue, map};
ghost use Rattle.std.specs.List.Sorted.{IsPermutation};
ghost use Rattle.row_table.specs.Chains.{IsCurrent};
ghost use Rattle.step_relation.specs.Images.{IsMade};
ghost use Rattle.step_relation.specs.Linked.{OneCurrent};
ghost use Rattle.step_relation.specs.Rows.{token_of};
ghost use Rattle.state_images.specs.Tokens.{AreSorted, HasCurrent, IsBeaten, NoneIsBeaten};

use core_state::{Row, State};
use heat_plan::{Act, Equals, RowNo, Token, TryCopy};
use std::alloc::{AllocError, Global};

// Whether no row is newer than a current one of its stack and name.
pub(crate) fn is_current_newest(alloc: Global, s: &State) -> Result<bool, AllocError>
    requires { IsMade s.now.state }
    ensures { IfOk result (λ b. IsTrue b ↔ OneCurrent s.now.state.rows) }
{
    let sorted = sorted_tokens(alloc, s.rows())?;
    Ok(none_is_beaten(s, sorted.as_slice()))
}

// The rows' tokens by stack, name and number.
fn sorted_tokens(alloc: Global, rows: &[Row]) -> Result<Vec<Token>, AllocError>
    ensures same { IfOk result (λ v. IsPermutation (map token_of rows.now) v.items) }
    ensures sorted { IfOk result (λ v. AreSorted v.items) }
{
    let mut tokens = tokens_of(alloc, rows)?;
    tokens.sort()?;
    Ok(tokens)
}

// The rows' tokens.
fn tokens_of(alloc: Global, rows: &[Row]) -> Result<Vec<Token>, AllocError>
    ensures { IfOk result (λ v. v.items ≡ map token_of rows.now) }
{
    let mut tokens = Vec::with_capacity(alloc, rows.len())?;
    for row in rows {
        tokens.push(token_of_row(row)?)?;
    }
    Ok(tokens)
}

// A row's token.
fn token_of_row(row: &Row) -> Result<Token, AllocError>
    ensures { IfOk result (λ t. t ≡ token_of row.now) }
{
    Ok(Token {
        stack: row.stack.copy()?,
        name: row.name.copy()?,
        row: row.no,
    })
}

// Whether no token is followed by a newer one of its name though its row is current.
fn none_is_beaten(s: &State, tokens: &[Token]) -> bool
    ensures { IsTrue result ↔ NoneIsBeaten s.now.state.rows tokens.now }
{
    for i in 1..tokens.len() {
        if is_beaten(s, &tokens[i - 1], &tokens[i]) {
            return false;
        }
    }
    true
}

// Whether the one token's row is current though the other is newer.
fn is_beaten(s: &State, token: &Token, next: &Token) -> bool
    ensures { IsTrue result ↔ IsBeaten s.now.state.rows token.now next.now }
{
    token.stack.equals(&next.stack)
        && token.name.equals(&next.name)
        && token.row != next.row
        && has_current(s, token.row)
}

// Whether the row of this number is current.
fn has_current(s: &State, no: RowNo) -> bool
    ensures { IsTrue result ↔ HasCurrent s.now.state.rows no }
{
    match s.row(&no) {
        Some(row) => row.act != Act::Delete && row.replaced_by.is_none(),
        None => false,
    }
}
