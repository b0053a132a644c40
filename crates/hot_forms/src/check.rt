//! The parts that checks are made of.
ghost use Rattle.std.specs.Prelude.{◌≡◌, IfOk, map, bytes_eq};
ghost use Rattle.std.specs.List.{list_any};
ghost use Rattle.heat_value.specs.declared.path.Step.{Step as step_type};
ghost use Rattle.hot_forms.specs.Checks.{under, unless as the_unless, is_among as the_is_among};
ghost use Rattle.hot_forms.specs.Checks.{unknown_key as the_unknown_key};

use crate::{Flaw, HotCode};
use heat_value::{Props, Step, Text, TryCopy};
use std::alloc::{AllocError, Global};

/// The code at the root, unless this holds.
pub fn unless(alloc: Global, holds: bool, code: HotCode) -> Option<Flaw>
    ensures { result ≡ the_unless holds code }
{
    if holds {
        return None;
    }
    Some(Flaw::at_root(alloc, code))
}

/// What is wrong behind a key.
pub fn under_key(key: &Text, found: Option<Flaw>) -> Result<Option<Flaw>, AllocError>
    ensures { IfOk result (λ o. o ≡ under (step_type.Key key.now) found) }
{
    match found {
        Some(flaw) => Ok(Some(flaw.under(Step::Key(key.copy()?))?)),
        None => Ok(None),
    }
}

/// What is wrong behind a key of this name.
pub fn under_name(
    alloc: Global,
    name: &str,
    found: Option<Flaw>,
) -> Result<Option<Flaw>, AllocError>
    ensures { IfOk result (λ o. o ≡ under (step_type.Key name.now) found) }
{
    match found {
        Some(flaw) => Ok(Some(flaw.under(Step::Key(Text::from_str(alloc, name)?))?)),
        None => Ok(None),
    }
}

/// What is wrong behind a place in a list.
pub fn under_place(place: usize, found: Option<Flaw>) -> Result<Option<Flaw>, AllocError>
    ensures { IfOk result (λ o. o ≡ under (step_type.Index place) found) }
{
    match found {
        Some(flaw) => Ok(Some(flaw.under(Step::Index(place))?)),
        None => Ok(None),
    }
}

/// Whether a text is one of these.
pub fn is_among(known: &[&str], text: &str) -> bool
    ensures { result ≡ the_is_among (map (λ n. n.now) known.now) text.now }
{
    any_is(known, text)
}

// Whether a text is one of these.
fn any_is(known: &[&str], text: &str) -> bool
    ensures { result ≡ list_any (λ n. bytes_eq text.now n.now) known.now }
{
    known.iter().any(|name| text == *name)
}

/// The first key in byte order that isn't one of these.
pub fn unknown_key(
    alloc: Global,
    code: HotCode,
    known: &[&str],
    members: &Props,
) -> Result<Option<Flaw>, AllocError>
    ensures { IfOk result (λ o. o
        ≡ the_unknown_key code (map (λ n. n.now) known.now) members.now) }
{
    for member in members.as_slice() {
        if !is_among(known, member.key.as_str()) {
            return under_key(&member.key, Some(Flaw::at_root(alloc, code)));
        }
    }
    Ok(None)
}
