//! Tokens: under its token a resource is asked for, so that a second request has no further effect.
ghost use Rattle.std.specs.Prelude.{◌≡◌, ◌≢◌, ◌++◌, ◌∷◌, ℕ, IfOk, IfSome, IsNone, All, decimal};
ghost use Rattle.heat_plan.specs.Names.{IsStackName, IsResName};
ghost use Rattle.heat_plan.specs.Numbers.{IsNumber};

use crate::{ResName, RowNo, StackName};
use heat_value::{Equals, Text, TryCopy};
use std::alloc::{AllocError, Global};

/// The stack, the resource's name and the row that a resource belongs to.
#[derive(Debug, PartialEq, Eq, PartialOrd, Ord, Hash)]
pub struct Token {
    pub stack: StackName,
    pub name: ResName,
    pub row: RowNo,
}

impl Drop for Token {
    fn drop(self) {
        let Token {
            stack: _,
            name: _,
            row: _,
        } = self;
    }
}

impl Token {
    ghost use Rattle.heat_plan.specs.Tokens.{IsToken, token_text};
    ghost use Rattle.heat_plan.specs.declared.token.Token.{Token as token_type};

    /// The token as `stack/name/row`, the row in decimal.
    pub fn text(&self, alloc: Global) -> Result<Text, AllocError>
        ensures { IfOk result (λ t. t ≡ token_text self.now) }
    {
        let text = format!(in alloc;
            "{}/{}/{}",
            self.stack.as_str(),
            self.name.as_str(),
            self.row.get()
        )?;
        Ok(Text::from_string(text))
    }

    /// The token that these bytes are the text of; none where they are no token's.
    pub fn read(alloc: Global, bytes: &[u8]) -> Result<Option<Token>, AllocError>
        ensures some { IfOk result (λ o. IfSome o (λ t. token_text t ≡ bytes.now)) }
        ensures none { IfOk result (λ o. IsNone o
            → (t : token_type) → IsToken t → token_text t ≢ bytes.now) }
    {
        let Some((stack, rest)) = parted(bytes) else {
            return Ok(None);
        };
        let Some((name, row)) = parted(rest) else {
            return Ok(None);
        };
        read_parts(alloc, stack, name, row)
    }
}

// The token of three parts.
fn read_parts(
    alloc: Global,
    stack: &[u8],
    name: &[u8],
    row: &[u8],
) -> Result<Option<Token>, AllocError>
    ensures some { IfOk result (λ o. IfSome o (λ t.
        (t.stack ≡ stack.now) × (t.name ≡ name.now) × (decimal t.row ≡ row.now))) }
    ensures none { IfOk result (λ o. IsNone o → (n : ℕ)
        → IsStackName stack.now → IsResName name.now → IsNumber n → decimal n ≢ row.now) }
{
    let Some(row) = RowNo::read(row) else {
        return Ok(None);
    };
    let Some(stack) = StackName::read(alloc, stack)? else {
        return Ok(None);
    };
    let Some(name) = ResName::read(alloc, name)? else {
        return Ok(None);
    };
    Ok(Some(Token { stack, name, row }))
}

impl TryCopy for Token {
    fn copy(&self) -> Result<Token, AllocError> {
        Ok(Token {
            stack: self.stack.copy()?,
            name: self.name.copy()?,
            row: self.row,
        })
    }
}

impl Equals for Token {
    fn equals(&self, other: &Token) -> bool {
        self == other
    }
}

// What stands before the first `/`, and what stands behind it.
fn parted(bytes: &[u8]) -> Option<(&[u8], &[u8])>
    ensures some { IfSome result (λ p. p.0.now ++ 47 ∷ p.1.now ≡ bytes.now) }
    ensures first { IfSome result (λ p. All (λ b. b ≢ 47) p.0.now) }
    ensures none { IsNone result → All (λ b. b ≢ 47) bytes.now }
{
    match bytes.iter().position(|byte| *byte == b'/') {
        Some(at) => Some((&bytes[..at], &bytes[at + 1..])),
        None => None,
    }
}
