//! The names of the files: a token's name holds its three parts, and none leads out of the folder.
ghost use Rattle.std.specs.Prelude.{◌≡◌, IfOk, IfSome};
ghost use Rattle.heat_plan.specs.Tokens.{IsToken};
ghost use Rattle.file_provider.specs.Names.{name_of};

use heat_plan::Token;
use heat_value::Text;
use std::alloc::{AllocError, Global};
use std::marker::Model;

/// The name of a resource's file, `stack+name+row`.
#[derive(Drop)]
pub struct FileName {
    text: Text,
}

impl Model for FileName {
    ghost use Rattle.std.specs.Prelude.{List, ℕ};
    ghost use Rattle.file_provider.specs.Names.{IsInside};

    ghost Value = { List ℕ };

    ghost view = { λ n. n.text };

    ghost invariant = { λ n. IsInside n.text };
}

impl FileName {
    /// The name of the token's file.
    pub fn of(alloc: Global, token: &Token) -> Result<FileName, AllocError>
        ensures { IfOk result (λ n. n ≡ name_of token.now) }
    {
        look(token);
        let text = text_of(alloc, token)?;
        Ok(FileName { text })
    }

    /// The name as text.
    pub fn as_str(&self) -> &str
        ensures { result.now ≡ self.now }
    {
        self.text.as_str()
    }

    /// The name as text.
    pub fn into_text(self) -> Text
        ensures { result ≡ self }
    {
        let FileName { text } = self;
        text
    }
}

// The parts of a token, a plus between them.
fn text_of(alloc: Global, token: &Token) -> Result<Text, AllocError>
    ensures { IfOk result (λ t. t ≡ name_of token.now) }
{
    let (stack, name, row) = (token.stack.as_str(), token.name.as_str(), token.row.get());
    let text = format!(in alloc; "{stack}+{name}+{row}")?;
    Ok(Text::from_string(text))
}

// Looks at a token's parts, each of which is of its grammar.
fn look(token: &Token)
    ensures { IsToken token.now }
{
    let _row = token.row.get();
    let _stack = token.stack.as_str();
    let _name = token.name.as_str();
}

/// The token whose file has this name; none where it is no token's.
pub fn token_of(alloc: Global, name: &str) -> Result<Option<Token>, AllocError>
    ensures { IfOk result (λ o. IfSome o (λ t. name_of t ≡ name.now)) }
{
    let mut text = Vec::with_capacity(alloc, name.len())?;
    for byte in name.as_bytes() {
        text.push(if *byte == b'+' { b'/' } else { *byte })?;
    }
    let Some(token) = Token::read(alloc, &text)? else {
        return Ok(None);
    };
    if FileName::of(alloc, &token)?.as_str() == name {
        Ok(Some(token))
    } else {
        Ok(None)
    }
}
