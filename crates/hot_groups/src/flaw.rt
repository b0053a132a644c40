//! What is wrong with a template's groups, and where.
ghost use Rattle.std.specs.Prelude.{◌≡◌, IfOk};
ghost use Rattle.heat_value.specs.declared.path.Step.{Step as step_type};
ghost use Rattle.hot_groups.specs.Codes.{wrong, under as the_under, unless as the_unless};

use crate::GroupCode;
use heat_value::{Path, Step, Text, TryCopy};
use std::alloc::{AllocError, Global};

/// A code with the path of what it speaks of, from the template's root on.
#[derive(Debug, Drop)]
pub struct GroupFlaw {
    pub code: GroupCode,
    pub path: Path,
}

impl GroupFlaw {
    /// The code at the value that is looked at.
    pub(crate) fn here(alloc: Global, code: GroupCode) -> GroupFlaw
        ensures { result ≡ wrong code }
    {
        GroupFlaw {
            code,
            path: Path::root(alloc),
        }
    }
}

/// The code, unless this holds.
pub(crate) fn unless(alloc: Global, holds: bool, code: GroupCode) -> Option<GroupFlaw>
    ensures { result ≡ the_unless holds code }
{
    if holds {
        return None;
    }
    Some(GroupFlaw::here(alloc, code))
}

/// What is wrong behind a key.
pub(crate) fn under(key: &Text, found: Option<GroupFlaw>) -> Result<Option<GroupFlaw>, AllocError>
    ensures { IfOk result (λ o. o ≡ the_under (step_type.Key key.now) found) }
{
    match found {
        Some(flaw) => Ok(Some(GroupFlaw {
            code: flaw.code,
            path: flaw.path.under(Step::Key(key.copy()?))?,
        })),
        None => Ok(None),
    }
}

/// What is wrong behind a place in a list.
pub(crate) fn under_place(
    place: usize,
    found: Option<GroupFlaw>,
) -> Result<Option<GroupFlaw>, AllocError>
    ensures { IfOk result (λ o. o ≡ the_under (step_type.Index place) found) }
{
    match found {
        Some(flaw) => Ok(Some(GroupFlaw {
            code: flaw.code,
            path: flaw.path.under(Step::Index(place))?,
        })),
        None => Ok(None),
    }
}

/// What is wrong behind a key of this name.
pub(crate) fn under_name(
    alloc: Global,
    name: &str,
    found: Option<GroupFlaw>,
) -> Result<Option<GroupFlaw>, AllocError>
    ensures { IfOk result (λ o. o ≡ the_under (step_type.Key name.now) found) }
{
    under(&Text::from_str(alloc, name)?, found)
}
