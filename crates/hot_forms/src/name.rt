//! The names of parameters, conditions, resources and outputs.
ghost use Rattle.std.specs.Prelude.{◌≡◌};
ghost use Rattle.std.specs.List.{list_all};
ghost use Rattle.hot_forms.specs.Names.{is_name_byte as the_is_name_byte, is_name as the_is_name};
ghost use Rattle.hot_forms.specs.Names.{misnamed as the_misnamed};

use crate::check::unless;
use crate::{Flaw, HotCode};
use std::alloc::Global;

/// What is wrong with a name.
pub fn misnamed(alloc: Global, name: &str) -> Option<Flaw>
    ensures { result ≡ the_misnamed name.now }
{
    unless(alloc, is_name(name), HotCode::H07)
}

/// Whether a text is 1 to 255 ASCII letters, digits, `_`, `.`, `-`.
pub fn is_name(name: &str) -> bool
    ensures { result ≡ the_is_name name.now }
{
    let bytes = name.as_bytes();
    0 < bytes.len() && bytes.len() <= 255 && are_name_bytes(bytes)
}

// Whether the bytes are all such as a name has.
fn are_name_bytes(bytes: &[u8]) -> bool
    ensures { result ≡ list_all the_is_name_byte bytes.now }
{
    bytes.iter().all(|byte| is_name_byte(*byte))
}

// A letter or digit, all ASCII, or one of `_`, `.` and `-`.
fn is_name_byte(byte: u8) -> bool
    ensures { result ≡ the_is_name_byte byte }
{
    byte.is_ascii_alphanumeric() || byte == b'_' || byte == b'.' || byte == b'-'
}
