//! Tokens.
ghost use Rattle.std.specs.Prelude.{◌≡◌, IfOk, IfErr};
ghost use Rattle.plan_codec.specs.Sheets.{behind};
ghost use Rattle.plan_codec.specs.Spellings.{Takes, Refuses};
ghost use Rattle.row_codec.specs.Records.{spelled_token, IsProperToken};
ghost use Rattle.row_codec.specs.RecordLaws.{token_parts};

use plan_codec::{Readable, ResName, RowNo, Sheet, StackName, Token, Unread, Writable};
use std::alloc::Global;

// The parts in their order.
type Parts = (StackName, (ResName, RowNo));

/// The token at the front.
pub(crate) fn token_at(alloc: Global, bytes: &[u8]) -> Result<(Token, &[u8]), Unread>
    ensures ok { IfOk result (λ x. Takes spelled_token IsProperToken bytes.now x.0 x.1.now) }
    ensures err { IfErr result (Refuses spelled_token IsProperToken bytes.now) }
{
    let (parts, rest) = Parts::read(alloc, bytes)?;
    Ok((token_of(parts), rest))
}

// The token of its parts.
#[tactic(auto, unfolding(crate::specs::RecordLaws::token_parts))]
fn token_of(parts: Parts) -> Token
    ensures { result ≡ token_parts.to parts }
{
    let (stack, (name, row)) = parts;
    Token { stack, name, row }
}

/// Puts a token.
#[tactic(auto, using(crate::proofs::Puts::puts), unfolding(crate::specs::Records::spelled_token))]
pub(crate) fn put_token(token: &Token, sheet: &mut Sheet)
    ensures bytes { sheet.new ≡ behind sheet.old (spelled_token token.now) }
    ensures proper { IsProperToken token.now }
{
    token.stack.put(sheet);
    token.name.put(sheet);
    token.row.put(sheet);
}
