//! The parts that checks are made of.
ghost use Rattle.std.specs.Prelude.{◌≡◌, IfOk, option_map};
ghost use Rattle.heat_value.specs.Data.{no_members};
ghost use Rattle.heat_value.specs.Meaning.{data_of};
ghost use Rattle.heat_value.specs.declared.path.Step.{Step as step_type};
ghost use Rattle.hot_catalog.specs.Definitions.{members_there as the_members_there};
ghost use Rattle.hot_catalog.specs.Paths.{here_unless as the_here_unless, behind};
ghost use Rattle.hot_forms.specs.Shapes.{members_in as the_members_in};

use heat_value::{Path, Props, Step, Text, TryCopy, Value};
use std::alloc::{AllocError, Global};

/// The root, unless this holds.
pub fn here_unless(alloc: Global, holds: bool) -> Option<Path>
    ensures { result ≡ the_here_unless holds }
{
    if holds {
        return None;
    }
    Some(Path::root(alloc))
}

/// What is wrong behind a key.
pub fn behind_key(key: &Text, found: Option<Path>) -> Result<Option<Path>, AllocError>
    ensures { IfOk result (λ o. o ≡ behind (step_type.Key key.now) found) }
{
    match found {
        Some(path) => Ok(Some(path.under(Step::Key(key.copy()?))?)),
        None => Ok(None),
    }
}

/// What is wrong behind a key of this name.
pub fn behind_name(
    alloc: Global,
    name: &str,
    found: Option<Path>,
) -> Result<Option<Path>, AllocError>
    ensures { IfOk result (λ o. o ≡ behind (step_type.Key name.now) found) }
{
    match found {
        Some(path) => Ok(Some(path.under(Step::Key(Text::from_str(alloc, name)?))?)),
        None => Ok(None),
    }
}

/// What is wrong behind a place in a list.
pub fn behind_place(place: usize, found: Option<Path>) -> Result<Option<Path>, AllocError>
    ensures { IfOk result (λ o. o ≡ behind (step_type.Index place) found) }
{
    match found {
        Some(path) => Ok(Some(path.under(Step::Index(place))?)),
        None => Ok(None),
    }
}

/// The members of an object; any other value has none, as `none` has.
pub fn members_in<'a>(value: &'a Value, none: &'a Props) -> &'a Props
    requires { none.now ≡ no_members }
    ensures { result.now ≡ the_members_in (data_of value.now) }
{
    match value {
        Value::Fields(fields) => fields,
        Value::Null | Value::Flag(_) | Value::Whole(_) | Value::Words(_) | Value::Items(_) => none,
    }
}

/// The members of an object that stands there.
pub fn members_there<'a>(value: Option<&'a Value>, none: &'a Props) -> &'a Props
    requires { none.now ≡ no_members }
    ensures { result.now ≡ the_members_there (option_map (λ v. data_of v.now) value.entry) }
{
    match value {
        Some(value) => members_in(value, none),
        None => none,
    }
}
