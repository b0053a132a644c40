//! The names of stacks and of resources. Both compare and sort by their bytes, which are ASCII.
ghost use Rattle.std.specs.Prelude.{◌≡◌, ◌↔◌, IsTrue, IsSome, IfSome, IfOk};
ghost use Rattle.heat_plan.specs.Names.{IsNameByte, IsStackName, IsResName};

use heat_value::{Equals, Text, TryCopy};
use std::alloc::{AllocError, Global};
use std::marker::Model;

/// A letter, and at most 254 letters, digits, `_`, `.` or `-` behind it, all ASCII.
#[derive(Debug, PartialEq, Eq, PartialOrd, Ord, Hash, Drop)]
pub struct StackName {
    text: Text,
}

impl Model for StackName {
    ghost use Rattle.std.specs.Prelude.{List, ℕ};
    ghost use Rattle.heat_plan.specs.Names.{IsStackName};

    ghost Value = { List ℕ };

    ghost view = { λ n. n.text };

    ghost invariant = { λ n. IsStackName n.text };

    ghost inverse = { λ n. record { text = n } };
}

impl StackName {
    /// The name that these bytes are; none where they are off its grammar.
    pub fn read(alloc: Global, bytes: &[u8]) -> Result<Option<StackName>, AllocError>
        ensures exact { IfOk result (λ o. IsSome o ↔ IsStackName bytes.now) }
        ensures value { IfOk result (λ o. IfSome o (λ n. n ≡ bytes.now)) }
    {
        if !is_stack_name(bytes) {
            return Ok(None);
        }
        Ok(Some(StackName {
            text: text_of_name(alloc, bytes)?,
        }))
    }

    /// The name as text.
    pub fn as_str(&self) -> &str
        ensures value { result.now ≡ self.now }
        ensures grammar { IsStackName self.now }
    {
        self.text.as_str()
    }
}

impl TryCopy for StackName {
    fn copy(&self) -> Result<StackName, AllocError> {
        Ok(StackName {
            text: self.text.copy()?,
        })
    }
}

impl Equals for StackName {
    fn equals(&self, other: &StackName) -> bool {
        self == other
    }
}

/// 1 to 255 letters, digits, `_`, `.` or `-`, all ASCII.
#[derive(Debug, PartialEq, Eq, PartialOrd, Ord, Hash, Drop)]
pub struct ResName {
    text: Text,
}

impl Model for ResName {
    ghost use Rattle.std.specs.Prelude.{List, ℕ};
    ghost use Rattle.heat_plan.specs.Names.{IsResName};

    ghost Value = { List ℕ };

    ghost view = { λ n. n.text };

    ghost invariant = { λ n. IsResName n.text };

    ghost inverse = { λ n. record { text = n } };
}

impl ResName {
    /// The name that these bytes are; none where they are off its grammar.
    pub fn read(alloc: Global, bytes: &[u8]) -> Result<Option<ResName>, AllocError>
        ensures exact { IfOk result (λ o. IsSome o ↔ IsResName bytes.now) }
        ensures value { IfOk result (λ o. IfSome o (λ n. n ≡ bytes.now)) }
    {
        if !is_resource_name(bytes) {
            return Ok(None);
        }
        Ok(Some(ResName {
            text: text_of_name(alloc, bytes)?,
        }))
    }

    /// The name as text.
    pub fn as_str(&self) -> &str
        ensures value { result.now ≡ self.now }
        ensures grammar { IsResName self.now }
    {
        self.text.as_str()
    }
}

impl TryCopy for ResName {
    fn copy(&self) -> Result<ResName, AllocError> {
        Ok(ResName {
            text: self.text.copy()?,
        })
    }
}

impl Equals for ResName {
    fn equals(&self, other: &ResName) -> bool {
        self == other
    }
}

// The text of a name.
fn text_of_name(alloc: Global, name: &[u8]) -> Result<Text, AllocError>
    requires { IsResName name.now }
    ensures { IfOk result (λ t. t ≡ name.now) }
{
    match str::from_utf8(name) {
        Ok(text) => Text::from_str(alloc, text),
        Err(_) => unreachable!(),
    }
}

// A letter or digit, or one of `_`, `.` and `-`.
fn is_name_byte(byte: u8) -> bool
    ensures { IsTrue result ↔ IsNameByte byte }
{
    byte.is_ascii_alphanumeric() || byte == b'_' || byte == b'.' || byte == b'-'
}

// 1 to 255 of such bytes.
fn is_resource_name(name: &[u8]) -> bool
    ensures { IsTrue result ↔ IsResName name.now }
{
    !name.is_empty() && name.len() <= 255 && name.iter().all(|byte| is_name_byte(*byte))
}

// Such a name that begins with a letter.
fn is_stack_name(name: &[u8]) -> bool
    ensures { IsTrue result ↔ IsStackName name.now }
{
    is_resource_name(name) && name[0].is_ascii_alphabetic()
}
